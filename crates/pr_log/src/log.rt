// The causal log of a node.
ghost use Rattle.pr_inval.specs.declared.write_rec.WriteRec.{WriteRec};
ghost use Rattle.pr_log.specs.Known.{Has, IsNew, uncovered};
ghost use Rattle.pr_log.specs.Log.{IsAddedOwn, IsCut, IsDarkIn, IsDarkened, IsNewLog, IsOmittedIn, IsRefined, Knows};
ghost use Rattle.pr_log.specs.Many.{IsSetWithin};
ghost use Rattle.pr_log.specs.Waiting.{IsNextOf};
ghost use Rattle.pr_sets.specs.Spans.{IsSetOf};
ghost use Rattle.pr_vectors.specs.Vector.{Covers, IsVector, Le, clock_of, join_of};
ghost use Rattle.std.specs.Option.{option_copied};
ghost use Rattle.std.specs.Prelude.{◌≡◌, ◌≤◌, ◌<◌, ◌+◌, ◌⊎◌, ◌↔◌, ℕ, List, true, false, IfOk, IsErr, IsTrue, OnErr, OnOk, Some};

use crate::dark::Dark;
use crate::index::Index;
use crate::{Near, Steps, waiting};
use pr_inval::WriteRec;
use pr_sets::NameSet;
use pr_stamps::NoMemory;
use pr_vectors::{PackedVector, Vector};
use std::alloc::Global;
use std::marker::{Brand, Model};
use std::sync::ledger::{Blank, Ledger};

// Behind so many looks at writes to other names it is first asked whether one of the names waits at all.
const FIRST_ASK: usize = 16;

/// The causal log of a node: its vector and cut, the names that are dark at each point of others, and the known writes
/// above the cut, those that a precise invalidation told and those that the node made. The log of "PRACTI Replication"
/// (NSDI 2006). After want of memory it is spent: each later call that takes memory is refused, and of what it holds
/// nothing is said.
#[derive(Drop)]
pub struct Log {
    alloc: Global,
    node: u32,
    vector: Vector,
    cut: Vector,
    dark: Dark,
    known: Index,
    spent: bool,
}

impl Model for Log {
    ghost use Rattle.std.specs.Prelude.{◌<◌};
    ghost use Rattle.pr_log.specs.Log.{Logged};

    ghost Value = { Logged };

    ghost view = { λ l. record { node = l.node; vector = l.vector; cut = l.cut; dark = l.dark; known = l.known; spent = l.spent } };
}

impl Log {
    /// The log of a node that knows of nothing but that its own points are lit, in constant time.
    pub fn new(alloc: Global, node: u32) -> Result<Log, NoMemory>
        requires { node < 32 }
        ensures { IfOk result (λ log. IsNewLog log node) }
    {
        let dark = Dark::new(alloc)?;
        let known = Index::new(alloc)?;
        Ok(Log {
            alloc,
            node,
            vector: Vector::zero(),
            cut: Vector::zero(),
            dark,
            known,
            spent: false,
        })
    }

    /// Knows of a write of its own, whose point the vector then covers, in amortised constant time, or where names are
    /// listed in time logarithmic in the names that it wrote to.
    pub fn add_own(&mut self, write: &WriteRec) -> Result<(), NoMemory>
        requires own { write.now.stamp.node ≡ self.old.node }
        requires above { clock_of self.old.vector write.now.stamp.node < write.now.stamp.clock }
        ensures ok { OnOk result (IsAddedOwn self.old self.new write.now) }
        ensures works { OnOk result (self.new.spent ≡ false) }
        ensures err { OnErr result (self.new.spent ≡ true) }
        ensures spent { self.old.spent ≡ true → IsErr result }
    {
        if self.spent {
            return Err(NoMemory);
        }
        self.spent = true;
        learn(&mut self.known, &self.cut, Some(write))?;
        self.vector.raise(&write.stamp);
        self.spent = false;
        Ok(())
    }

    /// Takes an invalidation: at its points the names that the target lacks are lit too, its end is joined to the
    /// vector, and its write, if it is precise, is known where it is the first with its stamp and the cut does not
    /// cover it. For each node it takes time logarithmic in the dark sets of its points, for each that stands between,
    /// and linear in the intervals of that set and of the target.
    pub fn refine(
        &mut self,
        from: &PackedVector,
        to: &PackedVector,
        target: &NameSet,
        write: Option<&WriteRec>,
    ) -> Result<(), NoMemory>
        requires span { Le from.now to.now }
        requires from { Le from.now self.old.vector }
        ensures ok { OnOk result (IsRefined self.old self.new from.now to.now target.now (option_copied write.entry)) }
        ensures works { OnOk result (self.new.spent ≡ false) }
        ensures err { OnErr result (self.new.spent ≡ true) }
        ensures spent { self.old.spent ≡ true → IsErr result }
    {
        if self.spent {
            return Err(NoMemory);
        }
        self.spent = true;
        self.dark.refine(self.node, from, to, target)?;
        learn(&mut self.known, &self.cut, write)?;
        self.vector.join_in(to);
        self.spent = false;
        Ok(())
    }

    /// Covers points at which every name is dark but at own points, as a checkpoint does, in constant time. It takes no
    /// memory: a spent log alone refuses it.
    pub fn darken(&mut self, to: &PackedVector) -> Result<(), NoMemory>
        ensures ok { OnOk result (IsDarkened self.old self.new to.now) }
        ensures works { OnOk result (self.new.spent ≡ false) }
        ensures err { OnErr result (self.new.spent ≡ true) }
        ensures cause { OnErr result (self.old.spent ≡ true) }
        ensures spent { self.old.spent ≡ true → IsErr result }
    {
        if self.spent {
            return Err(NoMemory);
        }
        self.vector.join_in(to);
        Ok(())
    }

    /// Joins the vector to the cut. The writes that it covers are forgotten, in time linear in the known writes and the
    /// names that they are to, and so are the dark sets that stand below it alone, each in logarithmic time. It takes no
    /// memory.
    pub fn cut(&mut self)
        ensures cut { IsCut self.old self.new }
        ensures spent { self.new.spent ≡ self.old.spent }
    {
        self.cut.join_in(&self.vector);
        self.dark.forget(self.node, &self.cut);
        self.known.forget(&self.cut);
    }

    /// Lists the names of each node's known writes, by which the calls of streams that leave names out find those. If they
    /// are listed, it takes constant time, and else time linear in the known writes, for each logarithmic in the names.
    /// They stay listed until the next cut. Where they are not, these calls look at each write.
    pub fn list_names(&mut self) -> Result<(), NoMemory>
        ensures { self.new ≡ self.old }
    {
        self.known.list_names(self.alloc)
    }

    /// The points of which the node was told, in constant time.
    pub fn vector(&self) -> &Vector
        ensures value { result.now ≡ self.now.vector }
        ensures range { IsVector result.now }
    {
        let _ = self.vector.at(0);
        &self.vector
    }

    /// Up to where the log is cut off, in constant time.
    pub fn cut_at(&self) -> &Vector
        ensures value { result.now ≡ self.now.cut }
        ensures range { IsVector result.now }
    {
        let _ = self.cut.at(0);
        &self.cut
    }

    /// Whether this very write is known, and the cut does not cover it, in time logarithmic in the known writes of its
    /// node, and past the last of them in constant time.
    pub fn knows(&self, write: &WriteRec) -> bool
        ensures known { IsTrue result → Knows self.now write.now }
        ensures uncut { IsTrue result → ¬ Covers self.now.cut write.now.stamp }
    {
        !self.cut.covers(&write.stamp) && self.known.has(write)
    }

    /// Whether a call was refused memory.
    pub fn is_spent(&self) -> bool
        ensures { result ≡ self.now.spent }
    {
        self.spent
    }

    /// The least known write by stamp to one of the names whose point the position does not cover; None exactly where
    /// there is none. It takes the time of `next_write_counted` three times over at most. Behind 16 looks at writes to
    /// other names, and behind twice as many each time, it looks at as many intervals of the subscription, and names in
    /// them, of the nodes that wrote past the position; where these are all and none waits, it ends. It takes no memory.
    /// What is near a position a little before this one, of the same stream, makes its looks shorter.
    pub fn next_write(&self, pos: &Vector, sub: &NameSet, near: &mut Near) -> Option<&WriteRec>
        ensures { IsNextOf self.now.known pos.now sub.now (option_copied result) }
    {
        uncounted::<Brand>(&self.known, pos, sub, near, Blank::new(1))
    }

    /// The write that `next_write` gives, with each look at the index as one step: one for each node up to the last that
    /// wrote, and one for each write to other names that comes before the answer. A step takes time logarithmic in the
    /// node's known writes.
    pub fn next_write_counted<L: Ledger>(
        &self,
        pos: &Vector,
        sub: &NameSet,
        near: &mut Near,
        steps: &mut Steps<L>,
    ) -> Option<&WriteRec>
        ensures next { IsNextOf self.now.known pos.now sub.now (option_copied result) }
        ensures few { steps.new ≤ steps.old + uncovered self.now.known pos.now + 32 }
    {
        waiting::next_write(&self.known, pos, sub, 0, near, steps)
    }

    /// The names that are dark at a point between the vectors. For each node it takes time logarithmic in the dark sets
    /// of its points, for each that stands between, and linear in their intervals, for each doubling of them.
    pub fn dark_between(&self, from: &Vector, to: &Vector) -> Result<NameSet, NoMemory>
        requires cut { Le self.now.cut from.now }
        requires to { Le to.now (join_of from.now self.now.vector) }
        ensures { IfOk result (λ set. IsSetOf set (IsDarkIn self.now from.now to.now)) }
    {
        self.dark.between(self.alloc, self.node, from, to)
    }

    /// The names outside the subscription of known writes at points between the vectors, in time logarithmic in the
    /// node's known writes, for each write between; where none of the writer's lies past the end, at most for each of its
    /// names. A name that comes right behind another costs a union with those before it.
    pub fn omitted_between(
        &self,
        from: &Vector,
        to: &Vector,
        sub: &NameSet,
    ) -> Result<NameSet, NoMemory>
        requires cut { Le self.now.cut from.now }
        requires to { Le to.now (join_of from.now self.now.vector) }
        ensures { IfOk result (λ set. IsSetOf set (IsOmittedIn self.now from.now to.now sub.now)) }
    {
        self.known.omitted(self.alloc, from, to, sub)
    }

    /// The names that `omitted_between` finds; or where more than so many intervals hold them, in every set of them, just
    /// some of them, in more intervals as well. It takes the time of `omitted_between`. But where one node alone has points
    /// between the vectors, no known write past the end, and more writes between than names, it looks at the node's names
    /// in order, and stops behind the first whose intervals are more.
    pub fn omitted_within(
        &self,
        from: &Vector,
        to: &Vector,
        sub: &NameSet,
        most: usize,
    ) -> Result<NameSet, NoMemory>
        requires cut { Le self.now.cut from.now }
        requires to { Le to.now (join_of from.now self.now.vector) }
        ensures { IfOk result (λ set. IsSetWithin most set (IsOmittedIn self.now from.now to.now sub.now)) }
    {
        self.known.omitted_within(self.alloc, from, to, sub, most)
    }
}

// The next write, with a count that is let go.
fn uncounted<'a, L: Ledger>(
    index: &'a Index,
    pos: &Vector,
    sub: &NameSet,
    near: &mut Near,
    blank: Blank,
) -> Option<&'a WriteRec>
    requires name { blank.name ≡ L.name }
    requires parts { blank.parts ≡ L.parts }
    requires some { 0 < L.parts }
    ensures { IsNextOf index.now pos.now sub.now (option_copied result) }
{
    let mut steps = Steps::<L>::new(blank);
    waiting::next_write(index, pos, sub, FIRST_ASK, near, &mut steps)
}

// Keeps the write, if the cut does not cover it and it is the first with its stamp.
fn learn(known: &mut Index, cut: &Vector, write: Option<&WriteRec>) -> Result<(), NoMemory>
    ensures few { OnOk result ((pos : List ℕ) → uncovered known.new pos ≤ uncovered known.old pos + 1) }
    ensures ok { OnOk result ((x : WriteRec) → Has known.new x ↔ (Has known.old x ⊎ ((option_copied write.entry ≡ Some x) × (¬ Covers cut.now x.stamp) × IsNew known.old x.stamp))) }
{
    match write {
        Some(write) => learn_one(known, cut, write),
        None => Ok(()),
    }
}

fn learn_one(known: &mut Index, cut: &Vector, write: &WriteRec) -> Result<(), NoMemory>
    ensures few { OnOk result ((pos : List ℕ) → uncovered known.new pos ≤ uncovered known.old pos + 1) }
    ensures ok { OnOk result ((x : WriteRec) → Has known.new x ↔ (Has known.old x ⊎ ((Some write.now ≡ Some x) × (¬ Covers cut.now x.stamp) × IsNew known.old x.stamp))) }
{
    if cut.covers(&write.stamp) {
        return Ok(());
    }
    known.add(write)
}
