// Lines of commands on streams.
ghost use Rattle.pr_script.specs.Fields.{Gives};
ghost use Rattle.pr_script.specs.Lines.{attach_line, checkpoint_line, deliver_line, detach_line, flow_fits, flow_line, is_ready, may_flow, send_line};
ghost use Rattle.pr_script.specs.Reading.{Fits};
ghost use Rattle.std.specs.Prelude.{◌≡◌, IfOk};

use crate::Command;
use crate::item::Item;
use crate::kind::Kind;
use crate::known::Known;
use crate::parts::{label_alone, stream_and_number};
use crate::refusal::Refusal;

// Whether the stream is attached and no phase is open.
fn ready(known: &Known, stream: u32) -> bool
    ensures { result ≡ is_ready known.now stream }
{
    !known.in_phase && known.attached.has(stream)
}

#[tactic(auto, unfolding(crate::specs::Lines::attach_line))]
pub fn attach(known: &Known, rest: &[u8]) -> Result<Item, Refusal>
    ensures gives { Gives (λ x. x) result (attach_line known.now rest.now) }
    ensures fits { IfOk result (Fits known.now) }
{
    let stream = label_alone(Kind::Stream, known, rest)?;
    if known.in_phase {
        return Err(Refusal::Why(12));
    }
    Ok(Item::Command(Command::Attach { stream }))
}

#[tactic(auto, unfolding(crate::specs::Lines::detach_line))]
pub fn detach(known: &Known, rest: &[u8]) -> Result<Item, Refusal>
    ensures gives { Gives (λ x. x) result (detach_line known.now rest.now) }
    ensures fits { IfOk result (Fits known.now) }
{
    let stream = label_alone(Kind::Stream, known, rest)?;
    if !ready(known, stream) {
        return Err(Refusal::Why(12));
    }
    Ok(Item::Command(Command::Detach { stream }))
}

#[tactic(auto, unfolding(crate::specs::Lines::send_line))]
pub fn send(known: &Known, rest: &[u8]) -> Result<Item, Refusal>
    ensures gives { Gives (λ x. x) result (send_line known.now rest.now) }
    ensures fits { IfOk result (Fits known.now) }
{
    let stream = label_alone(Kind::Stream, known, rest)?;
    if !ready(known, stream) {
        return Err(Refusal::Why(12));
    }
    Ok(Item::Command(Command::Send { stream }))
}

#[tactic(auto, unfolding(crate::specs::Lines::checkpoint_line))]
pub fn checkpoint(known: &Known, rest: &[u8]) -> Result<Item, Refusal>
    ensures gives { Gives (λ x. x) result (checkpoint_line known.now rest.now) }
    ensures fits { IfOk result (Fits known.now) }
{
    let stream = label_alone(Kind::Stream, known, rest)?;
    if !ready(known, stream) {
        return Err(Refusal::Why(12));
    }
    Ok(Item::Command(Command::Checkpoint { stream }))
}

#[tactic(auto, unfolding(crate::specs::Lines::deliver_line))]
pub fn deliver(known: &Known, rest: &[u8]) -> Result<Item, Refusal>
    ensures gives { Gives (λ x. x) result (deliver_line known.now rest.now) }
    ensures fits { IfOk result (Fits known.now) }
{
    let (stream, number) = stream_and_number(4611686018427387903, known, rest)?;
    if known.in_phase {
        return Err(Refusal::Why(12));
    }
    Ok(Item::Command(Command::Deliver { stream, number }))
}

// Whether there is a place for one job more.
fn flow_fits(known: &Known) -> bool
    ensures { result ≡ flow_fits known.now }
{
    if !known.in_phase {
        return true;
    }
    let clients = known.clients.len();
    clients < 64 && known.flows.len() < 64 - clients
}

// Whether the stream is attached and does not flow in the phase yet.
fn may_flow(known: &Known, stream: u32) -> bool
    ensures { result ≡ may_flow known.now stream }
{
    known.attached.has(stream) && !(known.in_phase && known.flows.has(stream))
}

#[tactic(auto, unfolding(crate::specs::Lines::flow_line))]
pub fn flow(known: &Known, rest: &[u8]) -> Result<Item, Refusal>
    ensures gives { Gives (λ x. x) result (flow_line known.now rest.now) }
    ensures fits { IfOk result (Fits known.now) }
{
    let (stream, turns) = stream_and_number(1000000, known, rest)?;
    if turns > 1000000 || known.turns > 1000000 - turns || !flow_fits(known) {
        return Err(Refusal::Why(10));
    }
    if !may_flow(known, stream) {
        return Err(Refusal::Why(12));
    }
    Ok(Item::Command(Command::Flow { stream, turns }))
}
