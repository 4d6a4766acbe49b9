// What nodes answer.
ghost use Rattle.pr_check.specs.Events.{found_read, reply_with, value_of_read, width_of};
ghost use Rattle.pr_check.specs.Fields.{Gives};
ghost use Rattle.pr_script.specs.Labels.{AreLabels};
ghost use Rattle.pr_story.specs.Counts.{HasFound, HasReply};
ghost use Rattle.pr_story.specs.Ranges.{IsFinding, IsReply};
ghost use Rattle.pr_text.specs.Numbers.{nodes_of};
ghost use Rattle.std.specs.Prelude.{◌≡◌, IfOk};

use crate::field::field_at;
use crate::part::text;
use crate::refusal::Refusal;
use crate::row::pairs;
use crate::stamp::stamp;
use pr_script::Decl;
use pr_story::{Found, Reply};
use std::alloc::Global;

/// The answer to a read.
#[tactic(auto, unfolding(crate::specs::Events::reply_with))]
pub fn reply(alloc: Global, decls: &[Decl], word: &[u8], rest: &[u8]) -> Result<Reply, Refusal>
    requires { AreLabels decls.now }
    ensures reads { Gives result (reply_with decls.now word.now rest.now) }
    ensures range { IfOk result IsReply }
    ensures declared { IfOk result (HasReply (nodes_of decls.now)) }
{
    if word == b"never".as_slice() {
        return Ok(Reply::Never);
    }
    if word == b"value".as_slice() {
        return value(alloc, decls, rest);
    }
    if word == b"imprecise".as_slice() {
        let untold = stamp(decls, field_at(1, rest)).ok_or(Refusal::Unread)?;
        return Ok(Reply::Imprecise { untold });
    }
    if word == b"body".as_slice() {
        let stamp = stamp(decls, field_at(1, rest)).ok_or(Refusal::Unread)?;
        return Ok(Reply::Body { stamp });
    }
    if word == b"gone".as_slice() {
        let stamp = stamp(decls, field_at(1, rest)).ok_or(Refusal::Unread)?;
        return Ok(Reply::Gone { stamp });
    }
    Err(Refusal::Unread)
}

#[tactic(auto, unfolding(crate::specs::Events::value_of_read))]
fn value(alloc: Global, decls: &[Decl], rest: &[u8]) -> Result<Reply, Refusal>
    requires { AreLabels decls.now }
    ensures reads { Gives result (value_of_read decls.now rest.now) }
    ensures range { IfOk result IsReply }
    ensures declared { IfOk result (HasReply (nodes_of decls.now)) }
{
    let stamp = stamp(decls, field_at(1, rest)).ok_or(Refusal::Unread)?;
    let bytes = text(alloc, field_at(2, rest))?;
    Ok(Reply::Value { stamp, bytes })
}

/// How many fields an answer has.
pub fn width_of(reply: &Reply) -> usize
    ensures { result ≡ width_of reply.now }
{
    match reply {
        Reply::Never => 1,
        Reply::Value { .. } => 3,
        _ => 2,
    }
}

/// The conflicts of a name.
#[tactic(auto, unfolding(crate::specs::Events::found_read))]
pub fn found(alloc: Global, decls: &[Decl], rest: &[u8]) -> Result<Found, Refusal>
    requires { AreLabels decls.now }
    ensures reads { Gives result (found_read decls.now rest.now) }
    ensures range { IfOk result IsFinding }
    ensures declared { IfOk result (HasFound (nodes_of decls.now)) }
{
    let first = field_at(0, rest);
    if first == b"imprecise".as_slice() {
        let untold = stamp(decls, field_at(1, rest)).ok_or(Refusal::Unread)?;
        return Ok(Found::Imprecise { untold });
    }
    let pairs = pairs(alloc, decls, first)?;
    Ok(Found::Pairs(pairs))
}
