// Lines that declare.
ghost use Rattle.pr_script.specs.Fields.{Gives};
ghost use Rattle.pr_script.specs.Lines.{bodies_at, client_line, node_line, stream_at, stream_line};
ghost use Rattle.pr_script.specs.Reading.{Fits};
ghost use Rattle.std.specs.Prelude.{◌≡◌, IfOk};

use crate::Decl;
use crate::fields::{blank, end_field, field};
use crate::item::Item;
use crate::kind::Kind;
use crate::known::Known;
use crate::refusal::Refusal;
use crate::sets::{apart, set, sets};
use crate::table::is_label;
use crate::text::owned;
use std::alloc::Global;

#[tactic(auto, unfolding(crate::specs::Lines::node_line))]
pub fn node(alloc: Global, known: &Known, rest: &[u8]) -> Result<Item, Refusal>
    ensures gives { Gives (λ x. x) result (node_line known.now rest.now) }
    ensures fits { IfOk result (Fits known.now) }
{
    let (label, rest) = field(rest)?;
    if !is_label(label) {
        return Err(Refusal::Why(4));
    }
    let sets = sets(alloc, rest)?;
    if known.decls.is_declared(label) {
        return Err(Refusal::Why(8));
    }
    if known.decls.count(Kind::Node) >= 32 || sets.len() > 16 {
        return Err(Refusal::Why(10));
    }
    if !apart(sets.as_slice()) {
        return Err(Refusal::Why(11));
    }
    if known.begun {
        return Err(Refusal::Why(12));
    }
    let label = owned(alloc, label)?;
    Ok(Item::Decl(Decl::Node { label, sets }))
}

#[tactic(auto, unfolding(crate::specs::Lines::client_line))]
pub fn client(alloc: Global, known: &Known, rest: &[u8]) -> Result<Item, Refusal>
    ensures gives { Gives (λ x. x) result (client_line known.now rest.now) }
    ensures fits { IfOk result (Fits known.now) }
{
    let (label, rest) = field(rest)?;
    let home = end_field(rest)?;
    if !is_label(label) || !is_label(home) {
        return Err(Refusal::Why(4));
    }
    if known.decls.is_declared(label) {
        return Err(Refusal::Why(8));
    }
    let Some(node) = known.decls.number(Kind::Node, home) else {
        return Err(Refusal::Why(9));
    };
    if known.decls.count(Kind::Client) >= 256 {
        return Err(Refusal::Why(10));
    }
    if known.begun {
        return Err(Refusal::Why(12));
    }
    let label = owned(alloc, label)?;
    Ok(Item::Decl(Decl::Client { label, node }))
}

// A stream's fields.
#[derive(Clone, Copy)]
struct Fields<'a> {
    label: &'a [u8],
    source: &'a [u8],
    dest: &'a [u8],
    sub: &'a [u8],
    bodies: bool,
}

#[tactic(auto, unfolding(crate::specs::Lines::bodies_at))]
fn bodies(rest: &[u8]) -> Result<bool, Refusal>
    ensures { Gives (λ x. x) result (bodies_at rest.now) }
{
    if blank(rest) {
        return Ok(false);
    }
    let word = end_field(rest)?;
    if word == b"bodies".as_slice() {
        Ok(true)
    } else {
        Err(Refusal::Why(3))
    }
}

#[tactic(auto, unfolding(crate::specs::Lines::stream_at))]
fn stream_fields(rest: &[u8]) -> Result<Fields<'_>, Refusal>
    ensures { Gives (λ x. record { label = x.label.now; source = x.source.now; dest = x.dest.now; sub = x.sub.now; bodies = x.bodies }) result (stream_at rest.now) }
{
    let (label, rest) = field(rest)?;
    let (source, rest) = field(rest)?;
    let (dest, rest) = field(rest)?;
    let (sub, rest) = field(rest)?;
    let bodies = bodies(rest)?;
    Ok(Fields {
        label,
        source,
        dest,
        sub,
        bodies,
    })
}

#[tactic(auto, unfolding(crate::specs::Lines::stream_line))]
pub fn stream(alloc: Global, known: &Known, rest: &[u8]) -> Result<Item, Refusal>
    ensures gives { Gives (λ x. x) result (stream_line known.now rest.now) }
    ensures fits { IfOk result (Fits known.now) }
{
    let fields = stream_fields(rest)?;
    if !is_label(fields.label) || !is_label(fields.source) || !is_label(fields.dest) {
        return Err(Refusal::Why(4));
    }
    let sub = set(alloc, fields.sub)?;
    if known.decls.is_declared(fields.label) {
        return Err(Refusal::Why(8));
    }
    let Some(source) = known.decls.number(Kind::Node, fields.source) else {
        return Err(Refusal::Why(9));
    };
    let Some(dest) = known.decls.number(Kind::Node, fields.dest) else {
        return Err(Refusal::Why(9));
    };
    if known.decls.count(Kind::Stream) >= 64 {
        return Err(Refusal::Why(10));
    }
    if known.begun || source == dest {
        return Err(Refusal::Why(12));
    }
    let label = owned(alloc, fields.label)?;
    Ok(Item::Decl(Decl::Stream {
        label,
        source,
        dest,
        sub,
        bodies: fields.bodies,
    }))
}
