// The events of streams.
ghost use Rattle.pr_check.specs.Events.{accepted_of, attached_of, cause_read, count_at, down_of, empty_from, gapped_of, idle_of, missing_of, msg_with, sent_of, stale_of, stream_at};
ghost use Rattle.pr_check.specs.Fields.{Gives};
ghost use Rattle.pr_check.specs.Lines.{IsTellable};
ghost use Rattle.pr_script.specs.Labels.{AreLabels};
ghost use Rattle.pr_story.specs.Counts.{HasKind, HasVector};
ghost use Rattle.pr_story.specs.Ranges.{IsKind};
ghost use Rattle.pr_text.specs.Numbers.{Has};
ghost use Rattle.pr_script.specs.declared.kind.Kind.TheVariants as kinds;
ghost use Rattle.std.specs.Prelude.{◌≡◌, ℕ, IfOk, IfSome};

use crate::field::{behind, field_at};
use crate::message;
use crate::part::number;
use crate::refusal::Refusal;
use crate::vector::{no_clocks, packed, vector};
use pr_inval::{Kind, Msg};
use pr_script::{Decl, Kind as Of, number_within};
use pr_sets::NameSet;
use pr_stamps::NoMemory;
use pr_story::{Cause, Event};
use pr_vectors::{PackedVector, Vector};
use std::alloc::Global;

/// The stream that the line names.
pub fn stream_at(decls: &[Decl], line: &[u8]) -> Option<u32>
    requires { AreLabels decls.now }
    ensures reads { result ≡ stream_at decls.now line.now }
    ensures declared { IfSome result (Has decls.now kinds.Stream) }
{
    number(decls, Of::Stream, field_at(1, line))
}

fn count_at(line: &[u8]) -> Option<u64>
    ensures { result ≡ count_at 2 line.now }
{
    number_within(0, u64::MAX, field_at(2, line))
}

#[tactic(auto, unfolding(crate::specs::Events::attached_of))]
pub fn attached(alloc: Global, decls: &[Decl], line: &[u8]) -> Result<Event, Refusal>
    requires { AreLabels decls.now }
    ensures reads { Gives result (attached_of decls.now line.now) }
    ensures tellable { IfOk result (IsTellable decls.now) }
{
    let stream = stream_at(decls, line).ok_or(Refusal::Unread)?;
    let at = packed(alloc, decls, field_at(3, line))?;
    Ok(Event::Attached { stream, at })
}

#[tactic(auto, unfolding(crate::specs::Events::sent_of))]
pub fn sent(alloc: Global, decls: &[Decl], line: &[u8]) -> Result<Event, Refusal>
    requires { AreLabels decls.now }
    ensures reads { Gives result (sent_of decls.now line.now) }
    ensures tellable { IfOk result (IsTellable decls.now) }
{
    let stream = stream_at(decls, line).ok_or(Refusal::Unread)?;
    let number = count_at(line).ok_or(Refusal::Unread)?;
    let kind = message::kind(alloc, decls, behind(3, line))?;
    Ok(Event::Sent {
        msg: msg_with(stream, number, kind),
    })
}

fn msg_with(stream: u32, number: u64, kind: Kind) -> Msg
    ensures { result ≡ msg_with stream number kind }
{
    Msg {
        time: 0,
        stream,
        number,
        kind,
    }
}

#[tactic(auto, unfolding(crate::specs::Events::idle_of))]
pub fn idle(decls: &[Decl], line: &[u8]) -> Option<Event>
    requires { AreLabels decls.now }
    ensures reads { result ≡ idle_of decls.now line.now }
    ensures tellable { IfSome result (IsTellable decls.now) }
{
    let stream = stream_at(decls, line)?;
    Some(Event::Idle { stream })
}

#[tactic(auto, unfolding(crate::specs::Events::stale_of))]
pub fn stale(alloc: Global, decls: &[Decl], line: &[u8]) -> Result<Event, Refusal>
    requires { AreLabels decls.now }
    ensures reads { Gives result (stale_of decls.now line.now) }
    ensures tellable { IfOk result (IsTellable decls.now) }
{
    let stream = stream_at(decls, line).ok_or(Refusal::Unread)?;
    let cut = packed(alloc, decls, field_at(3, line))?;
    Ok(Event::Stale { stream, cut })
}

// A message that tells nothing from here on.
fn empty_from(alloc: Global, from: &Vector) -> Result<Kind, NoMemory>
    ensures value { IfOk result (λ kind. kind ≡ empty_from from.now) }
    ensures range { IfOk result IsKind }
    ensures declared { (nodes : ℕ) → HasVector nodes from.now → IfOk result (HasKind nodes) }
{
    let from = PackedVector::of(alloc, from)?;
    let _ = from.at(0);
    let to = PackedVector::of(alloc, &no_clocks())?;
    let target = NameSet::empty(alloc);
    let _ = target.parts();
    Ok(Kind::Imprecise { from, to, target })
}

#[tactic(auto, unfolding(crate::specs::Events::accepted_of))]
pub fn accepted(alloc: Global, decls: &[Decl], line: &[u8]) -> Result<Event, Refusal>
    requires { AreLabels decls.now }
    ensures reads { Gives result (accepted_of decls.now line.now) }
    ensures tellable { IfOk result (IsTellable decls.now) }
{
    let stream = stream_at(decls, line).ok_or(Refusal::Unread)?;
    let number = count_at(line).ok_or(Refusal::Unread)?;
    let at = packed(alloc, decls, field_at(4, line))?;
    let msg = msg_with(stream, number, empty_from(alloc, &no_clocks())?);
    Ok(Event::Accepted { msg, at })
}

#[tactic(auto, unfolding(crate::specs::Events::gapped_of))]
pub fn gapped(alloc: Global, decls: &[Decl], line: &[u8]) -> Result<Event, Refusal>
    requires { AreLabels decls.now }
    ensures reads { Gives result (gapped_of decls.now line.now) }
    ensures tellable { IfOk result (IsTellable decls.now) }
{
    let stream = stream_at(decls, line).ok_or(Refusal::Unread)?;
    let number = count_at(line).ok_or(Refusal::Unread)?;
    let from = vector(decls, field_at(4, line)).ok_or(Refusal::Unread)?;
    let has = packed(alloc, decls, field_at(6, line))?;
    let msg = msg_with(stream, number, empty_from(alloc, &from)?);
    Ok(Event::Gapped { msg, has })
}

#[tactic(auto, unfolding(crate::specs::Events::missing_of))]
pub fn missing(decls: &[Decl], line: &[u8]) -> Option<Event>
    requires { AreLabels decls.now }
    ensures reads { result ≡ missing_of decls.now line.now }
    ensures tellable { IfSome result (IsTellable decls.now) }
{
    let stream = stream_at(decls, line)?;
    let number = count_at(line)?;
    Some(Event::Missing { stream, number })
}

#[tactic(auto, unfolding(crate::specs::Events::down_of))]
pub fn down(decls: &[Decl], line: &[u8]) -> Option<Event>
    requires { AreLabels decls.now }
    ensures reads { result ≡ down_of decls.now line.now }
    ensures tellable { IfSome result (IsTellable decls.now) }
{
    let stream = stream_at(decls, line)?;
    let cause = cause(field_at(2, line))?;
    Some(Event::Down { stream, cause })
}

fn cause(word: &[u8]) -> Option<Cause>
    ensures { result ≡ cause_read word.now }
{
    if word == b"failed".as_slice() {
        Some(Cause::Failed)
    } else if word == b"ended".as_slice() {
        Some(Cause::Ended)
    } else if word == b"gap".as_slice() {
        Some(Cause::Gap)
    } else {
        None
    }
}
