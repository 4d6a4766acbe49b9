// What a node has done, and whether it works.
ghost use Rattle.pr_inval.specs.declared.node_fault.NodeFault.TheVariants as faults;
ghost use Rattle.pr_node.specs.Calls.{IsHalted};
ghost use Rattle.pr_story.specs.Lawful.{last_time};
ghost use Rattle.pr_story.specs.Turns.{event_of};
ghost use Rattle.pr_story.specs.declared.event.Event.TheVariants.{Accepted, Answered, Attached, Behind, Cut, Gapped, Sent, State, Wrote};
ghost use Rattle.std.specs.Prelude.{◌≡◌, ◌≤◌, ◌<◌, ◌+◌, ◌++◌, ◌∷◌, [], Err, true, false, IfErr, IfOk, OnErr, OnOk, max, reverse};

use pr_inval::{Bytes, Msg, NodeFault, Step, WriteRec};
use pr_names::Name;
use pr_stamps::{MAX, NoMemory, Seq};
use pr_story::{Entry, Event, Journal, Reply};
use pr_vectors::{PackedVector, Vector};
use std::alloc::Global;
use std::marker::Model;

// A node's journal. From where a call begins to where its entry is made the node counts as spent, so that a refusal on
// the way leaves it spent. An entry keeps its vectors packed, so one that has some may be refused.
#[derive(Drop)]
pub struct Diary {
    alloc: Global,
    journal: Journal,
    last: u64,
    spent: bool,
}

impl Model for Diary {
    ghost use Rattle.pr_node.specs.Stored.{Noted};
    ghost use Rattle.pr_story.specs.Lawful.{last_time};
    ghost use Rattle.std.specs.Prelude.{◌≡◌, ◌≤◌, reverse};

    ghost Value = { Noted };

    ghost view = { λ d. record { entries = d.journal; spent = d.spent } };

    ghost invariant = { λ d. (d.last ≡ last_time (reverse d.journal.items)) × (d.last ≤ 4611686018427387903) };
}

impl Diary {
    pub fn new(alloc: Global) -> Diary
        ensures items { result.entries.items ≡ [] }
        ensures works { result.spent ≡ false }
    {
        Diary {
            alloc,
            journal: Journal::new(alloc),
            last: 0,
            spent: false,
        }
    }

    // What a node has done up to now.
    pub fn of(alloc: Global, journal: Journal) -> Diary
        requires { last_time (reverse journal.items) ≤ 4611686018427387903 }
        ensures items { result.entries.items ≡ journal.items }
        ensures works { result.spent ≡ false }
    {
        let last = last_of(&journal);
        Diary {
            alloc,
            journal,
            last,
            spent: false,
        }
    }

    pub fn journal(&self) -> &Journal
        ensures { result.now ≡ self.now.entries }
    {
        &self.journal
    }

    pub fn is_spent(&self) -> bool
        ensures { result ≡ self.now.spent }
    {
        self.spent
    }

    // Keeps room for an entry, and gives its time, where its event hears of another.
    pub fn begin(&mut self, heard: u64) -> Result<u64, NodeFault>
        requires { heard ≤ 4611686018427387903 }
        ensures time { IfOk result (λ time. (time ≡ max (last_time (reverse self.old.entries.items)) heard + 1) × (time ≤ 4611686018427387903)) }
        ensures spent { OnOk result (self.new.spent ≡ true) }
        ensures worked { OnOk result (self.old.spent ≡ false) }
        ensures stays { self.new.spent ≡ false → self.old.spent ≡ false }
        ensures room { OnOk result (0 < self.new.entries.room) }
        ensures items { self.new.entries.items ≡ self.old.entries.items }
        ensures fault { IfErr result (IsHalted (last_time (reverse self.old.entries.items)) heard self.new.spent) }
        ensures was_spent { self.old.spent ≡ true → result ≡ Err faults.NoMemory }
    {
        if self.spent {
            return Err(NodeFault::NoMemory);
        }
        let time = next_time(self.last, heard)?;
        self.spent = true;
        self.journal.reserve()?;
        Ok(time)
    }

    // Nothing has changed since the call began.
    pub fn give_up(&mut self)
        ensures items { self.new.entries.items ≡ self.old.entries.items }
        ensures spent { self.new.spent ≡ false }
    {
        self.spent = false;
    }

    // Makes the entry of the event, for which there is room.
    pub fn finish(&mut self, time: u64, caller: u32, event: Event)
        requires room { 0 < self.old.entries.room }
        requires early { time ≤ 4611686018427387903 }
        ensures items { self.new.entries.items ≡ self.old.entries.items ++ (record { time = time; caller = caller; event = event }) ∷ [] }
        ensures spent { self.new.spent ≡ false }
    {
        self.journal.push(Entry {
            time,
            caller,
            event,
        });
        self.last = time;
        self.spent = false;
    }

    // Makes the entry of a turn of the stream.
    pub fn turned(&mut self, time: u64, caller: u32, stream: u32, step: Step)
        requires room { 0 < self.old.entries.room }
        requires early { time ≤ 4611686018427387903 }
        ensures items { self.new.entries.items ≡ self.old.entries.items ++ (record { time = time; caller = caller; event = event_of stream step }) ∷ [] }
        ensures spent { self.new.spent ≡ false }
    {
        match step {
            Step::Sent(msg) => self.sent(time, caller, msg),
            Step::Idle => self.finish(time, caller, Event::Idle { stream }),
            Step::Stale { cut } => self.finish(time, caller, Event::Stale { stream, cut }),
        }
    }

    // Makes the entry that a message was sent.
    pub fn sent(&mut self, time: u64, caller: u32, msg: Msg)
        requires room { 0 < self.old.entries.room }
        requires early { time ≤ 4611686018427387903 }
        ensures items { self.new.entries.items ≡ self.old.entries.items ++ (record { time = time; caller = caller; event = Sent msg }) ∷ [] }
        ensures spent { self.new.spent ≡ false }
    {
        self.finish(time, caller, Event::Sent { msg });
    }

    // Makes the entry of a client's write. The vector is packed by the caller, before the stores take the write.
    pub fn wrote(
        &mut self,
        time: u64,
        caller: u32,
        client: u32,
        write: &WriteRec,
        body: Bytes,
        after: PackedVector,
    )
        requires room { 0 < self.old.entries.room }
        requires early { time ≤ 4611686018427387903 }
        ensures items { self.new.entries.items ≡ self.old.entries.items ++ (record { time = time; caller = caller; event = Wrote client write.now body after }) ∷ [] }
        ensures spent { self.new.spent ≡ false }
    {
        let event = Event::Wrote {
            client,
            write: *write,
            body,
            after,
        };
        self.finish(time, caller, event);
    }

    // Makes the entry that a client's read was answered.
    pub fn answered(
        &mut self,
        time: u64,
        caller: u32,
        client: u32,
        name: &Name,
        reply: Reply,
        at: &Vector,
    ) -> Result<(), NoMemory>
        requires room { 0 < self.old.entries.room }
        requires early { time ≤ 4611686018427387903 }
        ensures items { OnOk result (self.new.entries.items ≡ self.old.entries.items ++ (record { time = time; caller = caller; event = Answered client name.now reply at.now }) ∷ []) }
        ensures spent { OnOk result (self.new.spent ≡ false) }
        ensures err { OnErr result (self.new ≡ self.old) }
    {
        let at = PackedVector::of(self.alloc, at)?;
        let event = Event::Answered {
            client,
            name: *name,
            reply,
            at,
        };
        self.finish(time, caller, event);
        Ok(())
    }

    // Makes the entry that a client has seen what the node lacks.
    pub fn behind(
        &mut self,
        time: u64,
        caller: u32,
        client: u32,
        needs: &Vector,
        has: &Vector,
    ) -> Result<(), NoMemory>
        requires room { 0 < self.old.entries.room }
        requires early { time ≤ 4611686018427387903 }
        ensures items { OnOk result (self.new.entries.items ≡ self.old.entries.items ++ (record { time = time; caller = caller; event = Behind client needs.now has.now }) ∷ []) }
        ensures spent { OnOk result (self.new.spent ≡ false) }
        ensures err { OnErr result (self.new ≡ self.old) }
    {
        let needs = PackedVector::of(self.alloc, needs)?;
        let has = PackedVector::of(self.alloc, has)?;
        self.finish(time, caller, Event::Behind { client, needs, has });
        Ok(())
    }

    // Makes the entry that a stream begins anew.
    pub fn attached(
        &mut self,
        time: u64,
        caller: u32,
        stream: u32,
        at: &Vector,
    ) -> Result<(), NoMemory>
        requires room { 0 < self.old.entries.room }
        requires early { time ≤ 4611686018427387903 }
        ensures items { OnOk result (self.new.entries.items ≡ self.old.entries.items ++ (record { time = time; caller = caller; event = Attached stream at.now }) ∷ []) }
        ensures spent { OnOk result (self.new.spent ≡ false) }
        ensures err { OnErr result (self.new ≡ self.old) }
    {
        let at = PackedVector::of(self.alloc, at)?;
        self.finish(time, caller, Event::Attached { stream, at });
        Ok(())
    }

    // Makes the entry that a message was taken.
    pub fn accepted(
        &mut self,
        time: u64,
        caller: u32,
        msg: Msg,
        at: &Vector,
    ) -> Result<(), NoMemory>
        requires room { 0 < self.old.entries.room }
        requires early { time ≤ 4611686018427387903 }
        ensures items { OnOk result (self.new.entries.items ≡ self.old.entries.items ++ (record { time = time; caller = caller; event = Accepted msg at.now }) ∷ []) }
        ensures spent { OnOk result (self.new.spent ≡ false) }
        ensures err { OnErr result (self.new ≡ self.old) }
    {
        let at = PackedVector::of(self.alloc, at)?;
        self.finish(time, caller, Event::Accepted { msg, at });
        Ok(())
    }

    // Makes the entry that a message was not taken, since what comes before it is missing.
    pub fn gapped(&mut self, time: u64, caller: u32, msg: Msg, has: &Vector) -> Result<(), NoMemory>
        requires room { 0 < self.old.entries.room }
        requires early { time ≤ 4611686018427387903 }
        ensures items { OnOk result (self.new.entries.items ≡ self.old.entries.items ++ (record { time = time; caller = caller; event = Gapped msg has.now }) ∷ []) }
        ensures spent { OnOk result (self.new.spent ≡ false) }
        ensures err { OnErr result (self.new ≡ self.old) }
    {
        let has = PackedVector::of(self.alloc, has)?;
        self.finish(time, caller, Event::Gapped { msg, has });
        Ok(())
    }

    // Makes the entry that the log was cut.
    pub fn cut(&mut self, time: u64, caller: u32, at: &Vector) -> Result<(), NoMemory>
        requires room { 0 < self.old.entries.room }
        requires early { time ≤ 4611686018427387903 }
        ensures items { OnOk result (self.new.entries.items ≡ self.old.entries.items ++ (record { time = time; caller = caller; event = Cut at.now }) ∷ []) }
        ensures spent { OnOk result (self.new.spent ≡ false) }
        ensures err { OnErr result (self.new ≡ self.old) }
    {
        let at = PackedVector::of(self.alloc, at)?;
        self.finish(time, caller, Event::Cut { at });
        Ok(())
    }

    // Makes the entry that tells the node's vectors.
    pub fn state(
        &mut self,
        time: u64,
        caller: u32,
        at: &Vector,
        cut: &Vector,
        floor: &Vector,
        precise: Seq<Vector>,
    ) -> Result<(), NoMemory>
        requires room { 0 < self.old.entries.room }
        requires early { time ≤ 4611686018427387903 }
        ensures items { OnOk result (self.new.entries.items ≡ self.old.entries.items ++ (record { time = time; caller = caller; event = State at.now cut.now floor.now precise }) ∷ []) }
        ensures spent { OnOk result (self.new.spent ≡ false) }
        ensures err { OnErr result (self.new ≡ self.old) }
    {
        let at = PackedVector::of(self.alloc, at)?;
        let cut = PackedVector::of(self.alloc, cut)?;
        let floor = PackedVector::of(self.alloc, floor)?;
        let event = Event::State {
            at,
            cut,
            floor,
            precise,
        };
        self.finish(time, caller, event);
        Ok(())
    }
}

// The time of the last entry, or 0 where there is none.
fn last_of(journal: &Journal) -> u64
    ensures { result ≡ last_time (reverse journal.now.items) }
{
    match journal.last() {
        Some(entry) => entry.time,
        None => 0,
    }
}

// The time is one more than the greater of the two; it is worn where that is the greatest.
fn next_time(last: u64, heard: u64) -> Result<u64, NodeFault>
    requires last { last ≤ 4611686018427387903 }
    requires heard { heard ≤ 4611686018427387903 }
    ensures time { IfOk result (λ time. (time ≡ max last heard + 1) × (time ≤ 4611686018427387903)) }
    ensures worn { IfErr result (λ fault. (fault ≡ faults.Worn 4611686018427387903) × (max last heard ≡ 4611686018427387903)) }
{
    let most = last.max(heard);
    if most == MAX {
        return Err(NodeFault::Worn { at: MAX });
    }
    Ok(most + 1)
}
