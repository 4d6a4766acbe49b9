// A stream flows over a wire.
ghost use Rattle.pr_flow.specs.Ending.{EndsByWire};
ghost use Rattle.pr_inval.specs.declared.msg.Msg.{Msg};
ghost use Rattle.pr_sim.specs.Commands.{ForEachRun, Grows, MakesOne};
ghost use Rattle.pr_flow.specs.Flows.{crossed};
ghost use Rattle.pr_sim.specs.Crossing.{Adds, Crosses, FlowCarries};
ghost use Rattle.pr_sim.specs.Flowing.{AreFewWires, CanGoDown, FlowEndsSo, HasJustSent, IsArrival, IsBegun, IsDownMade, IsJustSent, IsOnTheWay, IsUnderWay, MovesOn, StopsByWires, StopsSo, TurnsEnd};
ghost use Rattle.pr_sim.specs.Running.{HasAttached, IsKept};
ghost use Rattle.pr_sim.specs.Sound.{AddsSound, GrowsSound};
ghost use Rattle.pr_story.specs.History.{WasSent};
ghost use Rattle.pr_story.specs.Scripts.{events_of};
ghost use Rattle.pr_inval.specs.Messages.{IsMessage};
ghost use Rattle.pr_wire.specs.Spelling.{spelling};
ghost use Rattle.pr_wire.specs.declared.format.Format.TheVariants.{Two};
ghost use Rattle.std.specs.Prelude.{◌≡◌, ◌<◌, ◌+◌, ℕ, IsTrue, None, Some, length};

use crate::engine::{CALLER, Engine};
use crate::messages::last_sent;
use crate::slots::route;
use pr_flow::{Carried, FlowEnd, Stop, carry};
use pr_inval::{Msg, NodeFault, Taken};
use pr_node::Turned;
use pr_story::Cause;
use pr_wires::{Wire, Wires};

impl Engine {
    /// Makes so many turns of an attached stream over a wire that is connected for them. There are fewer only where one
    /// of them is stale, or the flow goes down; where no wire is given it goes down at once. Each message is encoded,
    /// carried and decoded once, besides the nodes' calls.
    pub fn flow<W: Wires>(
        &mut self,
        stream: u32,
        turns: u64,
        wires: &mut W,
    ) -> Result<Stop, NodeFault>
        requires kept { IsKept self.old }
        requires stream { stream < length self.old.sessions.items }
        requires attached { HasAttached self.old stream }
        requires few { AreFewWires (W.made wires.old) }
        ensures flowed { ForEachRun self.old (λ d attached h. FlowEndsSo stream turns d attached h self.new result) }
        ensures carried { ForEachRun self.old (λ d attached h. FlowCarries stream (W.carried wires.old) (W.carried wires.new) d attached h self.new result) }
        ensures wires { StopsByWires W.faults W.made W.out W.sound wires.old wires.new result }
        ensures sound_events { ForEachRun self.old (λ d attached h. IsTrue (W.sound wires.old (W.made wires.old + 1)) → AddsSound d h self.new) }
    {
        let ends = route(&self.routes, stream);
        match wires.connect(ends.source, ends.destination) {
            Err(_) => {
                self.go_down(stream, Cause::Failed)?;
                Ok(Stop::Went)
            }
            Ok(mut wire) => {
                let end = self.flow_over(stream, turns, &mut wire);
                wires.close(wire);
                Ok(stop_of(stream, end?))
            }
        }
    }

    // Makes so many turns over a wire, fewer where one of them ends the flow.
    fn flow_over<W: Wire>(
        &mut self,
        stream: u32,
        turns: u64,
        wire: &mut W,
    ) -> Result<FlowEnd, NodeFault>
        requires kept { IsKept self.old }
        requires stream { stream < length self.old.sessions.items }
        requires attached { HasAttached self.old stream }
        requires under { (W.state wire.old).under ≡ 0 }
        ensures flowed { ForEachRun self.old (λ d attached h. Grows (λ end es. TurnsEnd stream None turns 0 end (events_of es)) (λ es. IsBegun stream None turns (events_of es)) d attached h self.new result) }
        ensures crossed { ForEachRun self.old (λ d attached h. Adds (λ end es. Crosses (W.state wire.old) (W.state wire.new) stream None end (events_of es)) d attached h self.new result) }
        ensures wire { EndsByWire (W.state wire.old) (W.state wire.new) result }
        ensures sound { ForEachRun self.old (λ d attached h. GrowsSound d attached h self.new result) }
    {
        let mut left = turns;
        while left > 0 {
            match self.flow_turn(stream, wire)? {
                FlowEnd::Done => {}
                end => return Ok(end),
            }
            left -= 1;
        }
        Ok(FlowEnd::Done)
    }

    // Makes one turn over a wire.
    fn flow_turn<W: Wire>(&mut self, stream: u32, wire: &mut W) -> Result<FlowEnd, NodeFault>
        requires kept { IsKept self.old }
        requires stream { stream < length self.old.sessions.items }
        requires attached { HasAttached self.old stream }
        requires under { (W.state wire.old).under ≡ 0 }
        ensures flowed { ForEachRun self.old (λ d attached h. Grows (λ end es. (left : ℕ) → TurnsEnd stream None (left + 1) left end (events_of es)) (λ es. (left : ℕ) → IsBegun stream None (left + 1) (events_of es)) d attached h self.new result) }
        ensures crossed { ForEachRun self.old (λ d attached h. Adds (λ end es. Crosses (W.state wire.old) (W.state wire.new) stream None end (events_of es)) d attached h self.new result) }
        ensures wire { MovesOn (W.state wire.old) (W.state wire.new) result }
        ensures sound { ForEachRun self.old (λ d attached h. GrowsSound d attached h self.new result) }
    {
        match self.turn(stream)? {
            Turned::Idle => Ok(FlowEnd::Done),
            Turned::Stale => Ok(FlowEnd::Stale),
            Turned::Sent => self.cross(stream, wire),
        }
    }

    // Brings the message that the newest entry sends to its destination, over a wire, from where it stands.
    fn cross<W: Wire>(&mut self, stream: u32, wire: &mut W) -> Result<FlowEnd, NodeFault>
        requires kept { HasJustSent self.old stream }
        requires stream { stream < length self.old.sessions.items }
        requires under { (W.state wire.old).under ≡ 0 }
        ensures flowed { ForEachRun self.old (λ d attached h. (msg : Msg) → IsJustSent h stream msg → Grows (λ end es. (left : ℕ) → TurnsEnd stream (Some msg) left left end (events_of es)) (λ es. (left : ℕ) → IsBegun stream (Some msg) left (events_of es)) d attached h self.new result) }
        ensures crossed { ForEachRun self.old (λ d attached h. (msg : Msg) → IsJustSent h stream msg → Adds (λ end es. Crosses (W.state wire.old) (W.state wire.new) stream (Some msg) end (events_of es)) d attached h self.new result) }
        ensures wire { MovesOn (W.state wire.old) (W.state wire.new) result }
        ensures sound { ForEachRun self.old (λ d attached h. (msg : Msg) → IsJustSent h stream msg → GrowsSound d attached h self.new result) }
    {
        let source = route(&self.routes, stream).source;
        let msg = last_sent(&self.nodes, source);
        match carry(self.alloc, msg, wire)? {
            Carried::Whole(msg) => self.arrive(stream, msg),
            Carried::Cut(cause) => {
                self.go_down(stream, cause)?;
                Ok(FlowEnd::Down(cause))
            }
            Carried::Lied { sent, got } => Ok(FlowEnd::Lied {
                number: msg.number,
                sent,
                got,
            }),
        }
    }

    // Takes a message that came over a wire; behind a gap the flow goes down.
    fn arrive(&mut self, stream: u32, msg: Msg) -> Result<FlowEnd, NodeFault>
        requires kept { IsUnderWay self.old stream msg }
        requires stream { stream < length self.old.sessions.items }
        requires message { IsMessage msg }
        ensures flowed { ForEachRun self.old (λ d attached h. IsOnTheWay h stream msg → Grows (λ end es. (left : ℕ) → TurnsEnd stream (Some msg) left left end (events_of es)) (λ es. (left : ℕ) → IsBegun stream (Some msg) left (events_of es)) d attached h self.new result) }
        ensures crossed { ForEachRun self.old (λ d attached h. IsOnTheWay h stream msg → Adds (λ end es. crossed (events_of es) ≡ spelling Two msg) d attached h self.new result) }
        ensures end { IsArrival result }
        ensures sound { ForEachRun self.old (λ d attached h. IsOnTheWay h stream msg → GrowsSound d attached h self.new result) }
    {
        let taken = self.take_in(stream, msg)?;
        match &taken {
            Taken::Accepted { .. } => {
                drop(taken);
                Ok(FlowEnd::Done)
            }
            Taken::Gap { .. } => {
                drop(taken);
                self.go_down(stream, Cause::Gap)?;
                Ok(FlowEnd::Down(Cause::Gap))
            }
        }
    }

    /// Notes at a stream's destination that its flow went down, where `can_go_down` says that it may.
    pub fn go_down(&mut self, stream: u32, cause: Cause) -> Result<(), NodeFault>
        requires kept { IsKept self.old }
        requires stream { stream < length self.old.sessions.items }
        ensures { ForEachRun self.old (λ d attached h. CanGoDown d.plan h stream cause → MakesOne d attached h (IsDownMade stream cause) self.new result) }
    {
        let node = route(&self.routes, stream).destination;
        self.history.reserve(1)?;
        let Some(at) = &mut self.nodes[node as usize] else {
            unreachable!()
        };
        let Some(session) = &mut self.sessions[stream as usize] else {
            unreachable!()
        };
        let place = at.journal().len();
        at.down(CALLER, session, cause)?;
        self.history.push((node, place));
        Ok(())
    }
}

// What a step answers of a flow that ended so.
fn stop_of(stream: u32, end: FlowEnd) -> Stop
    ensures { StopsSo stream end result }
{
    match end {
        FlowEnd::Lied { number, sent, got } => Stop::Lied {
            stream,
            number,
            sent,
            got,
        },
        _ => Stop::Went,
    }
}
