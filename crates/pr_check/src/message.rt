// What messages tell.
ghost use Rattle.pr_check.specs.Events.{body_of, checkpoint_of, imprecise_of, kind_read, kind_with, precise_of};
ghost use Rattle.pr_check.specs.Fields.{Gives};
ghost use Rattle.pr_script.specs.Labels.{AreLabels};
ghost use Rattle.pr_story.specs.Counts.{HasKind};
ghost use Rattle.pr_story.specs.Ranges.{IsKind};
ghost use Rattle.pr_text.specs.Numbers.{nodes_of};
ghost use Rattle.std.specs.Prelude.{IfOk};

use crate::field::field_at;
use crate::part::{target, text};
use crate::refusal::Refusal;
use crate::row::rows;
use crate::stamp::{prev, stamp};
use crate::vector::packed;
use pr_inval::{Kind, WriteRec};
use pr_script::{Decl, name};
use std::alloc::Global;

/// What stands behind a message's stream and number.
#[tactic(auto, unfolding(crate::specs::Events::kind_with))]
pub fn kind(alloc: Global, decls: &[Decl], rest: &[u8]) -> Result<Kind, Refusal>
    requires { AreLabels decls.now }
    ensures reads { Gives result (kind_read decls.now rest.now) }
    ensures range { IfOk result IsKind }
    ensures declared { IfOk result (HasKind (nodes_of decls.now)) }
{
    let word = field_at(0, rest);
    if word == b"precise".as_slice() {
        return precise(alloc, decls, false, rest);
    }
    if word == b"gone".as_slice() {
        return precise(alloc, decls, true, rest);
    }
    if word == b"imprecise".as_slice() {
        return imprecise(alloc, decls, rest);
    }
    if word == b"checkpoint".as_slice() {
        return checkpoint(alloc, decls, rest);
    }
    if word == b"body".as_slice() {
        return body(alloc, decls, rest);
    }
    Err(Refusal::Unread)
}

#[tactic(auto, unfolding(crate::specs::Events::precise_of))]
fn precise(alloc: Global, decls: &[Decl], gone: bool, rest: &[u8]) -> Result<Kind, Refusal>
    requires { AreLabels decls.now }
    ensures reads { Gives result (precise_of decls.now gone rest.now) }
    ensures range { IfOk result IsKind }
    ensures declared { IfOk result (HasKind (nodes_of decls.now)) }
{
    let name = name(field_at(1, rest)).ok_or(Refusal::Unread)?;
    let _ = name.bytes();
    let stamp = stamp(decls, field_at(2, rest)).ok_or(Refusal::Unread)?;
    let prev = prev(decls, field_at(4, rest)).ok_or(Refusal::Unread)?;
    let from = packed(alloc, decls, field_at(6, rest))?;
    let to = packed(alloc, decls, field_at(8, rest))?;
    let write = WriteRec {
        name,
        stamp,
        prev,
        gone,
    };
    Ok(Kind::Precise { from, to, write })
}

#[tactic(auto, unfolding(crate::specs::Events::imprecise_of))]
fn imprecise(alloc: Global, decls: &[Decl], rest: &[u8]) -> Result<Kind, Refusal>
    requires { AreLabels decls.now }
    ensures reads { Gives result (imprecise_of decls.now rest.now) }
    ensures range { IfOk result IsKind }
    ensures declared { IfOk result (HasKind (nodes_of decls.now)) }
{
    let target = target(alloc, field_at(1, rest))?;
    let from = packed(alloc, decls, field_at(3, rest))?;
    let to = packed(alloc, decls, field_at(5, rest))?;
    Ok(Kind::Imprecise { from, to, target })
}

#[tactic(auto, unfolding(crate::specs::Events::checkpoint_of))]
fn checkpoint(alloc: Global, decls: &[Decl], rest: &[u8]) -> Result<Kind, Refusal>
    requires { AreLabels decls.now }
    ensures reads { Gives result (checkpoint_of decls.now rest.now) }
    ensures range { IfOk result IsKind }
    ensures declared { IfOk result (HasKind (nodes_of decls.now)) }
{
    let target = target(alloc, field_at(1, rest))?;
    let to = packed(alloc, decls, field_at(3, rest))?;
    let floor = packed(alloc, decls, field_at(5, rest))?;
    let rows = rows(alloc, decls, field_at(7, rest))?;
    Ok(Kind::Checkpoint {
        to,
        target,
        floor,
        rows,
    })
}

#[tactic(auto, unfolding(crate::specs::Events::body_of))]
fn body(alloc: Global, decls: &[Decl], rest: &[u8]) -> Result<Kind, Refusal>
    requires { AreLabels decls.now }
    ensures reads { Gives result (body_of decls.now rest.now) }
    ensures range { IfOk result IsKind }
    ensures declared { IfOk result (HasKind (nodes_of decls.now)) }
{
    let name = name(field_at(1, rest)).ok_or(Refusal::Unread)?;
    let _ = name.bytes();
    let stamp = stamp(decls, field_at(2, rest)).ok_or(Refusal::Unread)?;
    let bytes = text(alloc, field_at(3, rest))?;
    Ok(Kind::Body { name, stamp, bytes })
}
