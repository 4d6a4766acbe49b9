// A settle: the attached streams are attached anew, and then make their turns until none has anything to send.
ghost use Rattle.pr_inval.specs.declared.msg.Msg.{Msg};
ghost use Rattle.pr_inval.specs.Standing.{Remembered};
ghost use Rattle.pr_sim.specs.Flowing.{HasJustSent};
ghost use Rattle.pr_sim.specs.Commands.{Ends, ForEachRun, MakesOne, attached_of};
ghost use Rattle.pr_sim.specs.Running.{HasAttached, IsKept, IsRunning};
ghost use Rattle.pr_sim.specs.Settles.{AreAtRest, AttachesAnew, ForEachInTime, HasRounds, IsAdvance, IsAcceptOf, IsSettling, MakesPart, just};
ghost use Rattle.pr_story.specs.History.{NodeEntry};
ghost use Rattle.pr_story.specs.Scripts.{AreRound, AreSettled, Settle};
ghost use Rattle.pr_story.specs.Settling.{IsInTime};
ghost use Rattle.pr_story.specs.declared.event.Event.TheVariants.{Sent};
ghost use Rattle.std.specs.Prelude.{◌≡◌, ◌<◌, ◌∷◌, List, MatchOption, None, OnOk, Some, false, length, slice_index_or, true};

use crate::engine::Engine;
use crate::messages::last_sent;
use crate::slots::route;
use pr_inval::{NodeFault, Session};
use pr_node::Turned;
use pr_wire::through_bytes;

impl Engine {
    /// Attaches each attached stream anew, in order of declaration, and then lets each of them come to rest, round by
    /// round, up to a round in which nothing was sent. There are at most as many rounds as the streams have clocks and
    /// bodies to send, and each takes a turn of each attached stream besides its messages. Memory is taken for the
    /// encoding of one message at a time, besides what the nodes keep.
    pub fn settle(&mut self) -> Result<(), NodeFault>
        requires kept { IsKept self.old }
        ensures ends { ForEachRun self.old (λ d attached h. Ends Settle d attached h self.new result) }
        ensures rest { OnOk result (ForEachRun self.old (λ d attached h. (now : List NodeEntry) → IsRunning d attached now self.new → AreAtRest d attached now)) }
    {
        self.attach_all()?;
        self.rounds()
    }

    fn attach_all(&mut self) -> Result<(), NodeFault>
        requires kept { IsKept self.old }
        ensures { ForEachRun self.old (λ d attached h. AttachesAnew (attached_of d attached) d attached h self.new result) }
    {
        for at in 0..self.sessions.len() {
            self.attach_at(at)?;
        }
        Ok(())
    }

    // Attaches the stream at this place anew, if it is attached.
    fn attach_at(&mut self, at: usize) -> Result<(), NodeFault>
        requires kept { IsKept self.old }
        requires within { at < length self.old.sessions.items }
        ensures { ForEachRun self.old (λ d attached h. AttachesAnew (just attached at) d attached h self.new result) }
    {
        match attached_at(&self.sessions, at) {
            Some(stream) => self.attach(stream),
            None => Ok(()),
        }
    }

    fn rounds(&mut self) -> Result<(), NodeFault>
        requires settling { IsSettling self.old }
        ensures { ForEachInTime self.old (λ d attached h. HasRounds d attached h self.new result) }
    {
        while self.round()? {}
        Ok(())
    }

    // Lets each attached stream come to rest. The answer is whether anything was sent.
    fn round(&mut self) -> Result<bool, NodeFault>
        requires settling { IsSettling self.old }
        ensures { ForEachInTime self.old (λ d attached h. MakesPart (λ sent. AreRound (attached_of d attached)) d attached h self.new result) }
    {
        let mut sent = false;
        for at in 0..self.sessions.len() {
            sent |= self.rest_at(at)?;
        }
        Ok(sent)
    }

    // Lets the stream at this place come to rest, if it is attached.
    fn rest_at(&mut self, at: usize) -> Result<bool, NodeFault>
        requires settling { IsSettling self.old }
        requires within { at < length self.old.sessions.items }
        ensures { ForEachInTime self.old (λ d attached h. MakesPart (λ sent. AreRound (just attached at)) d attached h self.new result) }
    {
        match attached_at(&self.sessions, at) {
            Some(stream) => self.rest(stream),
            None => Ok(false),
        }
    }

    // Makes turns of an attached stream up to an idle one. The answer is whether anything was sent.
    fn rest(&mut self, stream: u32) -> Result<bool, NodeFault>
        requires settling { IsSettling self.old }
        requires stream { stream < length self.old.sessions.items }
        requires attached { HasAttached self.old stream }
        ensures { ForEachInTime self.old (λ d attached h. MakesPart (λ sent. AreSettled stream) d attached h self.new result) }
    {
        let mut sent = false;
        while self.advance(stream)? {
            sent = true;
        }
        Ok(sent)
    }

    // Makes a turn of an attached stream, whose message is taken at once; where the turn is stale, a checkpoint is sent
    // and taken. The answer is whether anything was sent.
    fn advance(&mut self, stream: u32) -> Result<bool, NodeFault>
        requires settling { IsSettling self.old }
        requires stream { stream < length self.old.sessions.items }
        requires attached { HasAttached self.old stream }
        ensures { ForEachInTime self.old (λ d attached h. MakesPart (IsAdvance stream) d attached h self.new result) }
    {
        match self.turn(stream)? {
            Turned::Idle => return Ok(false),
            Turned::Stale => {
                self.snapshot(stream)?;
                self.pass(stream)?;
                return Ok(true);
            }
            Turned::Sent => {}
        }
        self.pass(stream)?;
        Ok(true)
    }

    // Takes the message that the newest entry sends, through its bytes, at its destination.
    fn pass(&mut self, stream: u32) -> Result<(), NodeFault>
        requires kept { HasJustSent self.old stream }
        requires stream { stream < length self.old.sessions.items }
        ensures { ForEachRun self.old (λ d attached h. (msg : Msg) (sent : NodeEntry) (before : List NodeEntry) → h ≡ sent ∷ before → sent.entry.event ≡ Sent msg → msg.stream ≡ stream → IsInTime d.plan before stream → MakesOne d attached h (λ done. IsAcceptOf msg) self.new result) }
    {
        let source = route(&self.routes, stream).source;
        let msg = through_bytes(self.alloc, last_sent(&self.nodes, source))?;
        drop(self.take_in(stream, msg)?);
        Ok(())
    }
}

// The number of the stream at this place, if it is attached.
fn attached_at(sessions: &Vec<Option<Session>>, at: usize) -> Option<u32>
    requires { (x : Remembered) × (slice_index_or sessions.now.items at None ≡ Some x) }
    ensures { (x : Remembered) → slice_index_or sessions.now.items at None ≡ Some x → MatchOption result (x.attached ≡ false) (λ stream. (x.attached ≡ true) × (stream ≡ x.stream)) }
{
    match &sessions[at] {
        Some(session) if session.is_attached() => Some(session.stream()),
        _ => None,
    }
}
