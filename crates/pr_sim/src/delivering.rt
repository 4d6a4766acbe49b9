// A message is delivered.
ghost use Rattle.pr_inval.specs.declared.msg.Msg.{Msg};
ghost use Rattle.pr_node.specs.Calls.{IsTaken};
ghost use Rattle.pr_sim.specs.Commands.{ForEachRun, GivesOne, IsTakingMade, MakesOne};
ghost use Rattle.pr_sim.specs.Running.{IsKept};
ghost use Rattle.pr_story.specs.Commands.{ToDeliver};
ghost use Rattle.pr_story.specs.History.{WasSent};
ghost use Rattle.pr_story.specs.declared.entry.Entry.{Entry};
ghost use Rattle.pr_inval.specs.Messages.{IsMessage};
ghost use Rattle.std.specs.Prelude.{◌≡◌, ◌≢◌, ◌<◌, length};

use crate::engine::{CALLER, Engine};
use crate::messages::{again, place_of};
use crate::slots::route;
use pr_inval::{Msg, NodeFault, Taken};

impl Engine {
    /// Delivers the stream's message of this number, through its bytes, however often it was delivered. It finds the
    /// message in constant time, encodes and decodes it, and takes the time of the node's `accept`.
    pub fn deliver(&mut self, stream: u32, number: u64) -> Result<(), NodeFault>
        requires kept { IsKept self.old }
        requires stream { stream < length self.old.sessions.items }
        ensures { ForEachRun self.old (λ d attached h. GivesOne (ToDeliver stream number) d attached h self.new result) }
    {
        match place_of(&self.sent, stream, number) {
            None => self.miss(stream, number),
            Some(place) => {
                let source = route(&self.routes, stream).source;
                let msg = again(self.alloc, &self.nodes, source, place)?;
                drop(self.take_in(stream, msg)?);
                Ok(())
            }
        }
    }

    // Notes that a message was not sent.
    fn miss(&mut self, stream: u32, number: u64) -> Result<(), NodeFault>
        requires kept { IsKept self.old }
        requires stream { stream < length self.old.sessions.items }
        ensures { ForEachRun self.old (λ d attached h. ((msg : Msg) → WasSent h msg → msg.stream ≡ stream → msg.number ≢ number) → GivesOne (ToDeliver stream number) d attached h self.new result) }
    {
        let node = route(&self.routes, stream).destination;
        self.history.reserve(1)?;
        let Some(at) = &mut self.nodes[node as usize] else {
            unreachable!()
        };
        let place = at.journal().len();
        at.missing(CALLER, stream, number)?;
        self.history.push((node, place));
        Ok(())
    }

    /// Takes a message of the stream that was sent, at its destination, in the time of the node's `accept`.
    pub fn take_in(&mut self, stream: u32, msg: Msg) -> Result<Taken, NodeFault>
        requires kept { IsKept self.old }
        requires stream { stream < length self.old.sessions.items }
        requires message { IsMessage msg }
        ensures { ForEachRun self.old (λ d attached h. WasSent h msg → msg.stream ≡ stream → MakesOne d attached h (IsTakingMade msg) self.new result) }
    {
        let node = route(&self.routes, stream).destination;
        self.history.reserve(1)?;
        let Some(at) = &mut self.nodes[node as usize] else {
            unreachable!()
        };
        let place = at.journal().len();
        let taken = at.accept(CALLER, msg)?;
        self.history.push((node, place));
        let Some(session) = &mut self.sessions[stream as usize] else {
            unreachable!()
        };
        session.heard(time_of(&taken));
        Ok(taken)
    }
}

fn time_of(taken: &Taken) -> u64
    ensures { (msg : Msg) (e : Entry) → IsTaken msg taken.now e → result ≡ e.time }
{
    match taken {
        Taken::Accepted { time } => *time,
        Taken::Gap { time, .. } => *time,
    }
}
