// Calls on a stream, at its source and at its destination.
ghost use Rattle.pr_inval.specs.Standing as Standing;
ghost use Rattle.pr_inval.specs.Standing.{IsSameSession};
ghost use Rattle.pr_inval.specs.declared.msg.Msg.{Msg};
ghost use Rattle.pr_inval.specs.declared.node_fault.NodeFault.TheVariants as faults;
ghost use Rattle.pr_node.specs.Calls.{AddsAlone, AddsOfStream, IsAttachedAt, IsCheckpointSent, IsCheckpointed, IsDownFor, IsFault, IsMissed, IsStep, IsTimeWorn, IsTurned};
ghost use Rattle.pr_node.specs.Grammar.{IsStepSpelled};
ghost use Rattle.pr_node.specs.Scanning.{IsScanOf};
ghost use Rattle.pr_node.specs.Stored.{means};
ghost use Rattle.pr_inval.specs.Messages.{IsMessage};
ghost use Rattle.std.specs.Prelude.{◌≡◌, ◌<◌, true, Err, IfErr, IfOk, IsTrue, OnErr, OnOk};
ghost use Rattle.pr_story.specs.Sessions.{HasGoneOn};

use crate::answering::{answer, copy};
use crate::rebuilding::{cut, fresh};
use crate::starting::{checkpoint, start};
use crate::turning::{copy_of, is_idle, kind_of, list_names, next_turn, note, note_idle};
use crate::{Node, Scan, Turned};
use pr_inval::{Msg, NodeFault, Session, Step};
use pr_stamps::NoMemory;
use pr_story::{Cause, Event};
use pr_vectors::Vector;

impl Node {
    /// The turn of a stream at its source ("PRACTI Replication", NSDI 2006, section 3.1): its next invalidation; where
    /// it has told all, the next body, if it sends bodies; or that it lies behind the cut, so that it wants a
    /// checkpoint. It takes the time of `turn_from` with a fresh scan: of the log's calls, and for a body a logarithmic
    /// look at each known name of the subscription, up to the one that it sends.
    pub fn turn(&mut self, caller: u32, session: &mut Session) -> Result<Step, NodeFault>
        requires { IsTrue (Standing.means session.old).attached }
        ensures grammar { IfOk result IsStepSpelled }
        ensures ok { IfOk result (λ step. AddsOfStream (means self.old) (means self.new) (Standing.means session.old).standing caller (λ e. IsStep (Standing.means session.old).stream step e × HasGoneOn (Standing.means session.old) (Standing.means session.new) true e)) }
        ensures session { OnErr result (IsSameSession (Standing.means session.old) (Standing.means session.new)) }
        ensures fault { IfErr result (IsFault (means self.old) (means self.new) (IsTimeWorn (means self.old) (Standing.means session.old).standing.time)) }
        ensures spent { self.old.spent ≡ true → result ≡ Err faults.NoMemory }
    {
        let mut scan = Scan::new(self.alloc);
        self.turn_from(caller, session, &mut scan)
    }

    /// The same turn, from where the stream's scan has come. For a body it takes a look at each entry that was made since
    /// the scan last looked, and a logarithmic one at each name that these changed and at each known name of the
    /// subscription that it has not passed, up to the one that is sent. So many turns look at each entry once for each
    /// scan, and at a name once for each time that it changed, and once more. The message is copied once, for the answer.
    pub fn turn_from(
        &mut self,
        caller: u32,
        session: &mut Session,
        scan: &mut Scan,
    ) -> Result<Step, NodeFault>
        requires attached { IsTrue (Standing.means session.old).attached }
        requires scan { IsScanOf scan.old (Standing.means session.old).standing (means self.old).journal }
        ensures grammar { IfOk result IsStepSpelled }
        ensures ok { IfOk result (λ step. AddsOfStream (means self.old) (means self.new) (Standing.means session.old).standing caller (λ e. IsStep (Standing.means session.old).stream step e × HasGoneOn (Standing.means session.old) (Standing.means session.new) true e)) }
        ensures session { OnErr result (IsSameSession (Standing.means session.old) (Standing.means session.new)) }
        ensures scan { IsScanOf scan.new (Standing.means session.new).standing (means self.new).journal }
        ensures fault { IfErr result (IsFault (means self.old) (means self.new) (IsTimeWorn (means self.old) (Standing.means session.old).standing.time)) }
        ensures spent { self.old.spent ≡ true → result ≡ Err faults.NoMemory }
    {
        let time = self.diary.begin(session.time())?;
        let stream = session.stream();
        // What the log lists from here on stays listed where the turn then fails: a journal says nothing of it.
        list_names(&mut self.stores, session)?;
        let journal = self.diary.journal();
        let step = next_turn(self.alloc, &self.stores, journal, session, scan, time)?;
        let answer = match copy_of(self.alloc, &step) {
            Ok(answer) => answer,
            Err(refused) => {
                // By a call, so that its kinds are not told apart here.
                drop(step);
                return Err(refused.into());
            }
        };
        note(session, &step, time);
        self.diary.turned(time, caller, stream, step);
        Ok(answer)
    }

    /// The same turn, for callers that find its message where it stands, in the newest entry of the journal. It takes the
    /// time of `turn_from`, and copies nothing of the message.
    pub fn note_turn(
        &mut self,
        caller: u32,
        session: &mut Session,
        scan: &mut Scan,
    ) -> Result<Turned, NodeFault>
        requires attached { IsTrue (Standing.means session.old).attached }
        requires scan { IsScanOf scan.old (Standing.means session.old).standing (means self.old).journal }
        ensures ok { IfOk result (λ turned. AddsOfStream (means self.old) (means self.new) (Standing.means session.old).standing caller (λ e. IsTurned (Standing.means session.old).stream turned e × HasGoneOn (Standing.means session.old) (Standing.means session.new) true e)) }
        ensures session { OnErr result (IsSameSession (Standing.means session.old) (Standing.means session.new)) }
        ensures scan { IsScanOf scan.new (Standing.means session.new).standing (means self.new).journal }
        ensures fault { IfErr result (IsFault (means self.old) (means self.new) (IsTimeWorn (means self.old) (Standing.means session.old).standing.time)) }
        ensures spent { self.old.spent ≡ true → result ≡ Err faults.NoMemory }
    {
        let time = self.diary.begin(session.time())?;
        let stream = session.stream();
        if is_idle(&self.stores, session) {
            note_idle(session, time);
            self.diary.finish(time, caller, Event::Idle { stream });
            return Ok(Turned::Idle);
        }
        list_names(&mut self.stores, session)?;
        let journal = self.diary.journal();
        let step = next_turn(self.alloc, &self.stores, journal, session, scan, time)?;
        let turned = kind_of(&step);
        note(session, &step, time);
        self.diary.turned(time, caller, stream, step);
        Ok(turned)
    }

    /// Sends the checkpoint of the stream's names, at its source ("PRACTI Replication", NSDI 2006, section 3.3), up to
    /// the node's vector. It takes the time of `pr_snap::build`, and copies the message once, for the answer.
    pub fn checkpoint(&mut self, caller: u32, session: &mut Session) -> Result<Msg, NodeFault>
        requires { IsTrue (Standing.means session.old).attached }
        ensures grammar { IfOk result IsMessage }
        ensures ok { IfOk result (λ msg. AddsOfStream (means self.old) (means self.new) (Standing.means session.old).standing caller (λ e. IsCheckpointSent (Standing.means session.old).stream msg e × HasGoneOn (Standing.means session.old) (Standing.means session.new) true e)) }
        ensures session { OnErr result (IsSameSession (Standing.means session.old) (Standing.means session.new)) }
        ensures fault { IfErr result (IsFault (means self.old) (means self.new) (IsTimeWorn (means self.old) (Standing.means session.old).standing.time)) }
        ensures spent { self.old.spent ≡ true → result ≡ Err faults.NoMemory }
    {
        let time = self.diary.begin(session.time())?;
        let msg = checkpoint(self.alloc, &self.stores, session, time)?;
        let sent = msg.copy(self.alloc)?;
        session.sent(self.stores.gaps.vector(), time);
        self.diary.sent(time, caller, sent);
        Ok(msg)
    }

    /// Sends the same checkpoint, for callers that find it where it stands, in the newest entry of the journal. It takes
    /// the time of `pr_snap::build`, and copies nothing.
    pub fn note_checkpoint(&mut self, caller: u32, session: &mut Session) -> Result<(), NodeFault>
        requires { IsTrue (Standing.means session.old).attached }
        ensures ok { OnOk result (AddsOfStream (means self.old) (means self.new) (Standing.means session.old).standing caller (λ e. IsCheckpointed (Standing.means session.old).stream e × HasGoneOn (Standing.means session.old) (Standing.means session.new) true e)) }
        ensures session { OnErr result (IsSameSession (Standing.means session.old) (Standing.means session.new)) }
        ensures fault { IfErr result (IsFault (means self.old) (means self.new) (IsTimeWorn (means self.old) (Standing.means session.old).standing.time)) }
        ensures spent { self.old.spent ≡ true → result ≡ Err faults.NoMemory }
    {
        let time = self.diary.begin(session.time())?;
        let msg = checkpoint(self.alloc, &self.stores, session, time)?;
        session.sent(self.stores.gaps.vector(), time);
        self.diary.sent(time, caller, msg);
        Ok(())
    }

    /// Attaches the stream at its destination, and answers its start: per node the greatest covered clock up to which
    /// each point is told for each of the node's sets that share a name with the subscription. It takes the time of
    /// `last_precise` for each of these sets, linear in the intervals of all, and forgets the bodies sent.
    pub fn attach(&mut self, caller: u32, session: &mut Session) -> Result<Vector, NodeFault>
        ensures ok { IfOk result (λ at. AddsOfStream (means self.old) (means self.new) (Standing.means session.old).standing caller (λ e. IsAttachedAt (Standing.means session.old).stream at e × HasGoneOn (Standing.means session.old) (Standing.means session.new) true e)) }
        ensures session { OnErr result (IsSameSession (Standing.means session.old) (Standing.means session.new)) }
        ensures fault { IfErr result (IsFault (means self.old) (means self.new) (IsTimeWorn (means self.old) (Standing.means session.old).standing.time)) }
        ensures spent { self.old.spent ≡ true → result ≡ Err faults.NoMemory }
    {
        let time = self.diary.begin(session.time())?;
        let at = start(&self.stores.gaps, session.sub());
        self.diary.attached(time, caller, session.stream(), &at)?;
        session.begin(&at);
        session.heard(time);
        Ok(at)
    }

    /// A flow of the stream ended for this cause, at its destination. It takes constant time.
    pub fn down(
        &mut self,
        caller: u32,
        session: &mut Session,
        cause: Cause,
    ) -> Result<(), NodeFault>
        ensures ok { OnOk result (AddsOfStream (means self.old) (means self.new) (Standing.means session.old).standing caller (λ e. IsDownFor (Standing.means session.old).stream cause e × HasGoneOn (Standing.means session.old) (Standing.means session.new) (Standing.means session.old).attached e)) }
        ensures session { OnErr result (IsSameSession (Standing.means session.old) (Standing.means session.new)) }
        ensures fault { IfErr result (IsFault (means self.old) (means self.new) (IsTimeWorn (means self.old) (Standing.means session.old).standing.time)) }
        ensures spent { self.old.spent ≡ true → result ≡ Err faults.NoMemory }
    {
        let time = self.diary.begin(session.time())?;
        session.heard(time);
        let event = Event::Down {
            stream: session.stream(),
            cause,
        };
        self.diary.finish(time, caller, event);
        Ok(())
    }

    /// The stream was to deliver a message that was not sent, at its destination. It takes constant time.
    pub fn missing(&mut self, caller: u32, stream: u32, number: u64) -> Result<(), NodeFault>
        ensures ok { OnOk result (AddsAlone (means self.old) (means self.new) caller (IsMissed stream number)) }
        ensures fault { IfErr result (IsFault (means self.old) (means self.new) (IsTimeWorn (means self.old) 0)) }
        ensures spent { self.old.spent ≡ true → result ≡ Err faults.NoMemory }
    {
        let time = self.diary.begin(0)?;
        let event = Event::Missing { stream, number };
        self.diary.finish(time, caller, event);
        Ok(())
    }
}
