// A node.
ghost use Rattle.pr_inval.specs.declared.msg.Msg.{Msg};
ghost use Rattle.pr_inval.specs.declared.node_fault.NodeFault.TheVariants as faults;
ghost use Rattle.pr_node.specs.Answering.{IsAnswerAt, reply_of};
ghost use Rattle.pr_node.specs.Calls.{AddsAlone, AddsOfClient, IsDone, IsFault, IsMoveOf, IsSeen, IsStateEvent, IsTaken, IsTimeWorn, IsWriteWorn};
ghost use Rattle.pr_node.specs.Rebuilding.{IsOfNode};
ghost use Rattle.pr_node.specs.Stored.{means};
ghost use Rattle.pr_sets.specs.Sets.{AreApart};
ghost use Rattle.pr_story.specs.History.{current_vector};
ghost use Rattle.pr_story.specs.Told.{IsStart};
ghost use Rattle.pr_story.specs.declared.event.Event.TheVariants.{Conflicts, Cut, Dropped};
ghost use Rattle.pr_vectors.specs.Vector.{IsVector};
ghost use Rattle.pr_inval.specs.Messages.{IsMessage};
ghost use Rattle.std.specs.Prelude.{◌≡◌, ◌≤◌, ◌<◌, [], true, false, Err, IfErr, IfOk, OnOk, length, reverse};

mod streaming;

use crate::answering::{answer, copy, found, replies};
use crate::diary::Diary;
use crate::ranges::{bytes_in_range, msg_in_range};
use crate::rebuilding::{cut, drop_body, fresh, rebuilt};
use crate::standing::precise;
use crate::starting::{checkpoint, start};
use crate::taking::{gap, take};
use crate::writing::{next_stamp, own_write};
use crate::{Answer, Done, Seen, Stores};
use pr_inval::{Msg, NodeFault, Taken};
use pr_names::Name;
use pr_sets::NameSet;
use pr_stamps::{MAX, NoMemory, Seq};
use pr_story::{Event, Found, Journal, Journaled};
use pr_vectors::{PackedVector, Vector};
use std::alloc::Global;
use std::marker::Model;

/// One node of a replicated store. Each call that takes a caller's number makes exactly one entry of its journal, and
/// nothing else of it is seen. After want of memory it is spent: its journal and its sets stay, and each later such call
/// is refused.
#[derive(Drop)]
pub struct Node {
    alloc: Global,
    id: u32,
    diary: Diary,
    stores: Stores,
}

impl Model for Node {
    ghost use Rattle.pr_node.specs.Stored.{Stored};
    ghost use Rattle.pr_node.specs.Ties.{IsTied};
    ghost use Rattle.std.specs.Prelude.{◌≡◌, ◌<◌, false, reverse};

    ghost Value = { Stored };

    ghost view = { λ n. record { id = n.id; journal = n.diary.entries; stores = n.stores; spent = n.diary.spent } };

    ghost invariant = { λ n. (n.id < 32) × (n.diary.spent ≡ false → IsTied n.id (reverse n.diary.entries.items) n.stores) };
}

impl Journaled for Node {
    ghost number = { λ n. n.id };

    ghost sets = { λ n. (means n).sets };

    ghost journal = { λ n. (means n).journal };
}

impl Node {
    /// A node that has done nothing, with these sets of names, which share no name, and its number below 32. It takes
    /// time linear in the intervals of the sets, for each set.
    pub fn new(alloc: Global, id: u32, sets: Seq<NameSet>) -> Result<Node, NoMemory>
        requires id { id < 32 }
        requires apart { AreApart sets }
        ensures { IfOk result (λ node. means node ≡ record { id = id; sets = sets; journal = []; spent = false }) }
    {
        let stores = fresh(alloc, id, sets)?;
        Ok(Node {
            alloc,
            id,
            diary: Diary::new(alloc),
            stores,
        })
    }

    /// The node that did this: it answers and sends as the node did whose journal this is. It takes the time that the
    /// writes, the messages, the cuts and the drops took, and no entry is copied. A refusal leaves nothing.
    pub fn rebuild(
        alloc: Global,
        id: u32,
        sets: Seq<NameSet>,
        journal: Journal,
    ) -> Result<Node, NoMemory>
        requires id { id < 32 }
        requires apart { AreApart sets }
        requires told { IsOfNode id (reverse journal.items) }
        ensures { IfOk result (λ node. means node ≡ record { id = id; sets = sets; journal = reverse journal.items; spent = false }) }
    {
        let stores = rebuilt(alloc, id, sets, &journal)?;
        Ok(Node {
            alloc,
            id,
            diary: Diary::of(alloc, journal),
            stores,
        })
    }

    /// The points of which the node was told, in constant time. A spent node's are not said.
    pub fn vector(&self) -> Vector
        ensures value { self.now.spent ≡ false → result ≡ current_vector (means self.now).journal }
        ensures range { IsVector result }
    {
        *self.stores.log.vector()
    }

    /// What the node has done.
    pub fn journal(&self) -> &Journal
        ensures { reverse result.now.items ≡ (means self.now).journal }
    {
        self.diary.journal()
    }

    /// Whether a call was refused memory.
    pub fn is_spent(&self) -> bool
        ensures { result ≡ (means self.now).spent }
    {
        self.diary.is_spent()
    }

    /// A client's write (the local update of "PRACTI Replication", NSDI 2006, section 3.1), or Behind where the node's
    /// vector lacks some of `needs`, what the client has seen. The body has at most 65,536 bytes. It takes the time of
    /// the stores' calls, and is linear in the body.
    pub fn write(
        &mut self,
        caller: u32,
        client: u32,
        name: &Name,
        body: &[u8],
        needs: &Vector,
    ) -> Result<Done, NodeFault>
        requires short { length body.now ≤ 65536 }
        ensures ok { IfOk result (λ done. AddsOfClient (means self.old) (means self.new) needs.now caller (IsDone client name.now body.now false done)) }
        ensures fault { IfErr result (IsFault (means self.old) (means self.new) (IsWriteWorn (means self.old) needs.now)) }
        ensures spent { self.old.spent ≡ true → result ≡ Err faults.NoMemory }
    {
        self.put(caller, client, name, body, false, needs)
    }

    /// A client's delete: a write without a body, known by its invalidation alone. It answers as `write` does, in the
    /// time of the stores' calls.
    pub fn delete(
        &mut self,
        caller: u32,
        client: u32,
        name: &Name,
        needs: &Vector,
    ) -> Result<Done, NodeFault>
        ensures ok { IfOk result (λ done. AddsOfClient (means self.old) (means self.new) needs.now caller (IsDone client name.now [] true done)) }
        ensures fault { IfErr result (IsFault (means self.old) (means self.new) (IsWriteWorn (means self.old) needs.now)) }
        ensures spent { self.old.spent ≡ true → result ≡ Err faults.NoMemory }
    {
        self.put(caller, client, name, &[], true, needs)
    }

    fn put(
        &mut self,
        caller: u32,
        client: u32,
        name: &Name,
        body: &[u8],
        gone: bool,
        needs: &Vector,
    ) -> Result<Done, NodeFault>
        requires short { length body.now ≤ 65536 }
        requires gone { gone ≡ true → body.now ≡ [] }
        ensures ok { IfOk result (λ done. AddsOfClient (means self.old) (means self.new) needs.now caller (IsDone client name.now body.now gone done)) }
        ensures fault { IfErr result (IsFault (means self.old) (means self.new) (IsWriteWorn (means self.old) needs.now)) }
        ensures spent { self.old.spent ≡ true → result ≡ Err faults.NoMemory }
    {
        let time = self.diary.begin(0)?;
        let vector = self.stores.log.vector();
        let _ = needs.at(0);
        bytes_in_range(body);
        if !needs.le(vector) {
            self.diary.behind(time, caller, client, needs, vector)?;
            return Ok(Done::Behind { has: *vector });
        }
        let Some(stamp) = next_stamp(&self.stores, self.id) else {
            self.diary.give_up();
            return Err(NodeFault::Worn { at: MAX });
        };
        let after = PackedVector::of(self.alloc, self.stores.log.vector())?;
        let body = Seq::copied(self.alloc, body)?;
        let write = own_write(&mut self.stores, name, &stamp, gone, body.as_slice())?;
        self.diary.wrote(time, caller, client, &write, body, after);
        Ok(Done::Stamp(write.stamp))
    }

    /// Takes a message of a stream, or finds that one before it is missing ("PRACTI Replication", NSDI 2006, section
    /// 3.2). It takes the time of the stores' calls: what stands between the points of an invalidation, and the rows
    /// of a checkpoint. The name's bodies that a later write makes useless are dropped.
    pub fn accept(&mut self, caller: u32, msg: Msg) -> Result<Taken, NodeFault>
        requires { IsMessage msg }
        ensures ok { IfOk result (λ taken. AddsAlone (means self.old) (means self.new) caller (IsTaken msg taken)) }
        ensures fault { IfErr result (IsFault (means self.old) (means self.new) (IsTimeWorn (means self.old) msg.time)) }
        ensures spent { self.old.spent ≡ true → result ≡ Err faults.NoMemory }
    {
        msg_in_range(&msg);
        let time = self.diary.begin(msg.time)?;
        let has = self.stores.log.vector();
        if let Some(needs) = gap(&msg.kind, has) {
            let needs = needs.copy(self.alloc)?;
            let had = PackedVector::of(self.alloc, has)?;
            self.diary.gapped(time, caller, msg, has)?;
            return Ok(Taken::Gap {
                needs,
                has: had,
                time,
            });
        }
        take(self.alloc, &mut self.stores, &msg.kind)?;
        let at = self.stores.log.vector();
        self.diary.accepted(time, caller, msg, at)?;
        Ok(Taken::Accepted { time })
    }

    /// Truncates the log up to the node's vector, which is answered, and forgets the marks that it covers. It takes
    /// time linear in what is forgotten and in the marks that stay, with one look-up for each name that had marks, and
    /// no memory but for the entry.
    pub fn cut(&mut self, caller: u32) -> Result<Vector, NodeFault>
        ensures ok { IfOk result (λ at. AddsAlone (means self.old) (means self.new) caller (λ e. e.event ≡ Cut at)) }
        ensures fault { IfErr result (IsFault (means self.old) (means self.new) (IsTimeWorn (means self.old) 0)) }
        ensures spent { self.old.spent ≡ true → result ≡ Err faults.NoMemory }
    {
        let time = self.diary.begin(0)?;
        let at = *self.stores.log.vector();
        cut(&mut self.stores);
        self.diary.cut(time, caller, &at)?;
        Ok(at)
    }

    /// Drops the bodies of a name, in time logarithmic in the names and linear in its bodies. It takes no memory but for
    /// the entry.
    pub fn drop_body(&mut self, caller: u32, name: &Name) -> Result<(), NodeFault>
        ensures ok { IfOk result (λ _. AddsAlone (means self.old) (means self.new) caller (λ e. e.event ≡ Dropped name.now)) }
        ensures fault { IfErr result (IsFault (means self.old) (means self.new) (IsTimeWorn (means self.old) 0)) }
        ensures spent { self.old.spent ≡ true → result ≡ Err faults.NoMemory }
    {
        let time = self.diary.begin(0)?;
        let _ = name.bytes();
        drop_body(&mut self.stores, name);
        let event = Event::Dropped { name: *name };
        self.diary.finish(time, caller, event);
        Ok(())
    }

    /// The newest write to a name, by what the node was told, for a node that is not spent. It takes no memory, and
    /// time linear in the sets and in the name's bodies, and logarithmic in the names.
    pub fn look(&self, name: &Name) -> Answer<'_>
        requires { (means self.now).spent ≡ false }
        ensures { IsAnswerAt (means self.now) name.now (reply_of result) }
    {
        answer(&self.stores, name)
    }

    /// Where a stream of these names would start, if it were attached now, for a node that is not spent: per node the
    /// greatest covered clock up to which each point is told for each of the node's sets that share a name with these.
    /// It takes no memory, and for each set time linear in its intervals and in those of the names, and that of
    /// `Gaps::last_precise` where they share one.
    pub fn start(&self, names: &NameSet) -> Vector
        requires { (means self.now).spent ≡ false }
        ensures { IsStart (means self.now).sets (means self.now).id (means self.now).journal names.now result }
    {
        start(&self.stores.gaps, names)
    }

    /// A client's read, which is answered as by `look`, or Behind where the node's vector lacks some of `needs`, what
    /// the client has seen. It takes the time of `look`, and copies the body.
    pub fn read(
        &mut self,
        caller: u32,
        client: u32,
        name: &Name,
        needs: &Vector,
    ) -> Result<Seen, NodeFault>
        ensures ok { IfOk result (λ seen. AddsOfClient (means self.old) (means self.new) needs.now caller (IsSeen client name.now seen)) }
        ensures fault { IfErr result (IsFault (means self.old) (means self.new) (IsTimeWorn (means self.old) 0)) }
        ensures spent { self.old.spent ≡ true → result ≡ Err faults.NoMemory }
    {
        let time = self.diary.begin(0)?;
        let has = self.stores.log.vector();
        let _ = needs.at(0);
        let _ = name.bytes();
        if !needs.le(has) {
            self.diary.behind(time, caller, client, needs, has)?;
            return Ok(Seen::Behind { has: *has });
        }
        let (answered, kept) = replies(self.alloc, &answer(&self.stores, name))?;
        let at = self.stores.log.vector();
        self.diary.answered(time, caller, client, name, kept, at)?;
        Ok(Seen::Reply(answered))
    }

    /// The conflicts of a name ("PRACTI Replication", NSDI 2006, section 3.4), or the least untold point of its set, in
    /// the time of `Marks::pairs`.
    pub fn conflicts(&mut self, caller: u32, name: &Name) -> Result<Found, NodeFault>
        ensures ok { IfOk result (λ found. AddsAlone (means self.old) (means self.new) caller (λ e. e.event ≡ Conflicts name.now found)) }
        ensures fault { IfErr result (IsFault (means self.old) (means self.new) (IsTimeWorn (means self.old) 0)) }
        ensures spent { self.old.spent ≡ true → result ≡ Err faults.NoMemory }
    {
        let time = self.diary.begin(0)?;
        let _ = name.bytes();
        let found = found(&self.stores, name)?;
        let answered = copy(self.alloc, &found)?;
        let event = Event::Conflicts { name: *name, found };
        self.diary.finish(time, caller, event);
        Ok(answered)
    }

    /// Tells the node's state: its vector, cut and floor, and up to where each of its sets is precise, the rest last.
    /// It takes the time of `Gaps::last_precise` for each set.
    pub fn state(&mut self, caller: u32) -> Result<(), NodeFault>
        ensures ok { IfOk result (λ _. AddsAlone (means self.old) (means self.new) caller (λ e. IsStateEvent e.event)) }
        ensures fault { IfErr result (IsFault (means self.old) (means self.new) (IsTimeWorn (means self.old) 0)) }
        ensures spent { self.old.spent ≡ true → result ≡ Err faults.NoMemory }
    {
        let time = self.diary.begin(0)?;
        let precise = precise(self.alloc, &self.stores.gaps)?;
        let at = *self.stores.log.vector();
        let cut = *self.stores.log.cut_at();
        let floor = self.stores.marks.floor();
        self.diary.state(time, caller, &at, &cut, &floor, precise)?;
        Ok(())
    }

    /// A client came to this node. It takes constant time.
    pub fn moved(&mut self, caller: u32, client: u32) -> Result<(), NodeFault>
        ensures ok { OnOk result (AddsAlone (means self.old) (means self.new) caller (IsMoveOf client)) }
        ensures fault { IfErr result (IsFault (means self.old) (means self.new) (IsTimeWorn (means self.old) 0)) }
        ensures spent { self.old.spent ≡ true → result ≡ Err faults.NoMemory }
    {
        let time = self.diary.begin(0)?;
        let event = Event::Moved { client };
        self.diary.finish(time, caller, event);
        Ok(())
    }
}
