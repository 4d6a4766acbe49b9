// Commands on one stream.
ghost use Rattle.pr_sim.specs.Commands.{ForEachRun, GivesOne, IsCheckpointMade, IsTurnMade, MakesOne};
ghost use Rattle.pr_sim.specs.Running.{HasAttached, IsKept, IsRunning};
ghost use Rattle.pr_story.specs.Commands.{ToAttach, ToCheckpoint, ToSend};
ghost use Rattle.pr_story.specs.Scripts.{Detach, attached_after};
ghost use Rattle.std.specs.Prelude.{◌<◌, length};

use crate::engine::{CALLER, Engine};
use crate::slots::{begin, note, note_turn, room_for, route};
use pr_inval::NodeFault;
use pr_node::Turned;

impl Engine {
    /// Attaches a stream at its destination, in the time of the node's `attach`.
    pub fn attach(&mut self, stream: u32) -> Result<(), NodeFault>
        requires kept { IsKept self.old }
        requires stream { stream < length self.old.sessions.items }
        ensures { ForEachRun self.old (λ d attached h. GivesOne (ToAttach stream) d attached h self.new result) }
    {
        let node = route(&self.routes, stream).destination;
        self.history.reserve(1)?;
        let Some(at) = &mut self.nodes[node as usize] else {
            unreachable!()
        };
        let Some(session) = &mut self.sessions[stream as usize] else {
            unreachable!()
        };
        let place = at.journal().len();
        let _ = at.attach(CALLER, session)?;
        begin(&mut self.scans, stream);
        self.history.push((node, place));
        Ok(())
    }

    /// Makes a stream not attached, which gives no event, in constant time.
    pub fn detach(&mut self, stream: u32)
        requires kept { IsKept self.old }
        requires stream { stream < length self.old.sessions.items }
        ensures { ForEachRun self.old (λ d attached h. IsRunning d (attached_after (Detach stream) attached) h self.new) }
    {
        let Some(session) = &mut self.sessions[stream as usize] else {
            unreachable!()
        };
        session.detach();
    }

    /// Makes a turn of an attached stream, at its source, in the time of the node's `note_turn`. The message that it
    /// sends stands in the newest entry.
    pub fn turn(&mut self, stream: u32) -> Result<Turned, NodeFault>
        requires kept { IsKept self.old }
        requires stream { stream < length self.old.sessions.items }
        requires attached { HasAttached self.old stream }
        ensures { ForEachRun self.old (λ d attached h. MakesOne d attached h (IsTurnMade stream) self.new result) }
    {
        let node = route(&self.routes, stream).source;
        self.history.reserve(1)?;
        room_for(&mut self.sent, stream as usize, 1)?;
        let Some(at) = &mut self.nodes[node as usize] else {
            unreachable!()
        };
        let Some(session) = &mut self.sessions[stream as usize] else {
            unreachable!()
        };
        let place = at.journal().len();
        let scan = &mut self.scans[stream as usize];
        let turned = at.note_turn(CALLER, session, scan)?;
        self.history.push((node, place));
        note_turn(&mut self.sent, stream, turned, place);
        Ok(turned)
    }

    /// Makes a turn of an attached stream, whose message may then be delivered by its number, in the time of `turn`.
    pub fn send(&mut self, stream: u32) -> Result<(), NodeFault>
        requires kept { IsKept self.old }
        requires stream { stream < length self.old.sessions.items }
        requires attached { HasAttached self.old stream }
        ensures { ForEachRun self.old (λ d attached h. GivesOne (ToSend stream) d attached h self.new result) }
    {
        let _ = self.turn(stream)?;
        Ok(())
    }

    /// Makes a checkpoint of an attached stream, at its source, in the time of the node's `note_checkpoint`. The message
    /// stands in the newest entry.
    pub fn snapshot(&mut self, stream: u32) -> Result<(), NodeFault>
        requires kept { IsKept self.old }
        requires stream { stream < length self.old.sessions.items }
        requires attached { HasAttached self.old stream }
        ensures { ForEachRun self.old (λ d attached h. MakesOne d attached h (IsCheckpointMade stream) self.new result) }
    {
        let node = route(&self.routes, stream).source;
        self.history.reserve(1)?;
        room_for(&mut self.sent, stream as usize, 1)?;
        let Some(at) = &mut self.nodes[node as usize] else {
            unreachable!()
        };
        let Some(session) = &mut self.sessions[stream as usize] else {
            unreachable!()
        };
        let place = at.journal().len();
        at.note_checkpoint(CALLER, session)?;
        self.history.push((node, place));
        note(&mut self.sent, stream, place);
        Ok(())
    }

    /// Makes a checkpoint of an attached stream, which may then be delivered by its number, in the time of `snapshot`.
    pub fn checkpoint(&mut self, stream: u32) -> Result<(), NodeFault>
        requires kept { IsKept self.old }
        requires stream { stream < length self.old.sessions.items }
        requires attached { HasAttached self.old stream }
        ensures { ForEachRun self.old (λ d attached h. GivesOne (ToCheckpoint stream) d attached h self.new result) }
    {
        self.snapshot(stream)?;
        Ok(())
    }
}
