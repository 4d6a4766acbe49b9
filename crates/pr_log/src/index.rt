//! The known writes of a log.
ghost use Rattle.pr_log.specs.Sets.{is_gathered};
ghost use Rattle.pr_log.specs.Known.{Has, IsAdded, IsByStamp, IsFirstAbove, IsForgotten, IsForgottenUpTo, IsOmittedBetween, IsOmittedOf, IsWaiting, IsWithin, row_of, uncovered};
ghost use Rattle.pr_log.specs.Latest.{AreLatest, WroteAbove};
ghost use Rattle.pr_log.specs.Many.{IsSetWithin};
ghost use Rattle.pr_names.specs.Name.{IsName};
ghost use Rattle.pr_sets.specs.Spans.{IsSetOf, has};
ghost use Rattle.pr_inval.specs.declared.write_rec.WriteRec.{WriteRec};
ghost use Rattle.pr_vectors.specs.Vector.{clock_of};
ghost use Rattle.std.specs.Prelude.{◌≡◌, ◌≤◌, ◌<◌, ◌+◌, ◌⊎◌, ◌↔◌, ℕ, List, [], length, slice_index_or, IfNone, IfOk, IfSome, IsTrue, OnErr, OnOk, Some, false, option_copied};

use crate::collector::Collector;
use crate::latest::Latest;
use crate::writes::Writes;
use crate::{Near, Steps};
use pr_inval::WriteRec;
use pr_sets::NameSet;
use pr_stamps::{NODES, NoMemory};
use pr_vectors::{Vector, only_between};
use std::alloc::Global;
use std::marker::Model;
use std::sync::ledger::Ledger;

/// The known writes by node and clock. A log makes it and changes it.
#[derive(Drop)]
pub struct Index {
    rows: Vec<Writes>,
    // Only the first so many nodes have known writes.
    nodes: u32,
    // Whether the names of each node's writes are listed.
    listed: bool,
}

impl Model for Index {
    ghost use Rattle.std.specs.Prelude.{◌≡◌, ◌≤◌, List, ℕ, length};
    ghost use Rattle.pr_inval.specs.declared.write_rec.WriteRec.{WriteRec};
    ghost use Rattle.pr_log.specs.Known.{IsByStamp, IsWithin};

    ghost Value = { List (List (ℕ × WriteRec)) };

    ghost view = { λ i. i.rows.items };

    ghost invariant = { λ i. (length i.rows.items ≡ 32) × IsByStamp i.rows.items × (i.nodes ≤ 32) × IsWithin i.nodes i.rows.items };
}

impl Index {
    // No write is known.
    pub(crate) fn new(alloc: Global) -> Result<Index, NoMemory>
        ensures none { IfOk result (λ i. (x : WriteRec) → ¬ Has i x) }
        ensures few { IfOk result (λ i. (pos : List ℕ) → uncovered i pos ≡ 0) }
    {
        let rows = rows(alloc)?;
        Ok(Index {
            rows,
            nodes: 0,
            listed: false,
        })
    }

    // Keeps the write, if no known write has its stamp. It takes time logarithmic in its node's writes where one has a
    // later clock, and in the names of its node where names are listed.
    pub(crate) fn add(&mut self, write: &WriteRec) -> Result<(), NoMemory>
        ensures ok { OnOk result (IsAdded self.old self.new write.now) }
        ensures few { OnOk result ((pos : List ℕ) → uncovered self.new pos ≤ uncovered self.old pos + 1) }
        ensures err { OnErr result (self.new ≡ self.old) }
    {
        let node = write.stamp.node();
        self.nodes = self.nodes.max(node + 1);
        self.rows[node as usize].add(write)
    }

    // Drops the writes that the cut covers, and lists no names, in time linear in the known writes.
    pub(crate) fn forget(&mut self, cut: &Vector)
        ensures forgotten { IsForgotten self.old self.new cut.now }
        ensures few { (pos : List ℕ) → uncovered self.new pos ≤ uncovered self.old pos }
    {
        self.listed = false;
        forget(&mut self.rows, self.nodes, cut);
    }

    // Lists the names of each node's writes, by which those that a stream leaves out are found; if they are listed, in
    // constant time, and else in time linear in the known writes, for each logarithmic in the names. They stay listed
    // until writes are forgotten.
    pub(crate) fn list_names(&mut self, alloc: Global) -> Result<(), NoMemory>
        ensures { self.new ≡ self.old }
    {
        if self.listed {
            return Ok(());
        }
        list_names(alloc, &mut self.rows)?;
        self.listed = true;
        Ok(())
    }

    /// How many nodes there are up to the last that has known writes, or had some, in constant time.
    pub fn nodes(&self) -> u32
        ensures most { result ≤ 32 }
        ensures within { (x : WriteRec) → Has self.now x → x.stamp.node < result }
    {
        self.nodes
    }

    /// The known write of the node with the least clock above this one, as one step; None exactly where there is none.
    /// It takes constant time where it stands where the last one was found, or right behind, and else time logarithmic in
    /// the node's writes.
    pub fn next<L: Ledger>(
        &self,
        writer: u32,
        clock: u64,
        near: &mut Near,
        steps: &mut Steps<L>,
    ) -> Option<&WriteRec>
        requires { writer < 32 }
        ensures next { IsFirstAbove self.now writer clock (option_copied result) }
        ensures step { steps.new ≡ steps.old + 1 }
    {
        steps.tick();
        let mut place = near.at(writer);
        let found = self.first_above(writer, clock, &mut place);
        near.found(writer, place);
        found
    }

    // The names of known writes between the vectors that are none of these, in time logarithmic in the writes of a
    // node, for each write between; of a node that wrote nothing past the end at most linear in its names.
    pub(crate) fn omitted(
        &self,
        alloc: Global,
        from: &Vector,
        to: &Vector,
        sub: &NameSet,
    ) -> Result<NameSet, NoMemory>
        ensures { IfOk result (λ set. IsSetOf set (IsOmittedBetween self.now from.now to.now sub.now)) }
    {
        let mut names = Collector::new(alloc);
        self.by_stamp();
        for n in 0..to.nodes() {
            self.omit(n, from.at(n), to.at(n), sub, &mut names)?;
        }
        names.union()
    }

    // The same; or where one node alone has points between the vectors, of which none lies past the end, and more than so
    // many intervals hold its names, the first of them, with one interval more.
    pub(crate) fn omitted_within(
        &self,
        alloc: Global,
        from: &Vector,
        to: &Vector,
        sub: &NameSet,
        most: usize,
    ) -> Result<NameSet, NoMemory>
        ensures { IfOk result (λ set. IsSetWithin most set (IsOmittedBetween self.now from.now to.now sub.now)) }
    {
        match self.late_alone(from, to) {
            Some((node, latest)) => self.omitted_alone(alloc, node, latest, from, sub, most),
            None => self.omitted(alloc, from, to, sub),
        }
    }

    // The one node with points between the vectors, with its latest writes, where no known write of it is past the end,
    // its names are listed, and it has more writes between than names.
    fn late_alone(&self, from: &Vector, to: &Vector) -> Option<(u32, &Latest)>
        ensures range { IfSome result (λ r. r.0 < 32) }
        ensures alone { IfSome result (λ r. (k : ℕ) → k < 32 → clock_of from.now k < clock_of to.now k → k ≡ r.0) }
        ensures up_to { IfSome result (λ r. (x : WriteRec) → Has self.now x → x.stamp.node ≡ r.0 → x.stamp.clock ≤ clock_of to.now r.0) }
        ensures latest { IfSome result (λ r. AreLatest (row_of self.now r.0) r.1.now) }
    {
        let node = only_between(from, to)?;
        let latest = self.latest_above(node, from.at(node), to.at(node))?;
        Some((node, latest))
    }

    // The names of the node's writes past the vector that are none of these, or where they are many the first of them.
    fn omitted_alone(
        &self,
        alloc: Global,
        writer: u32,
        latest: &Latest,
        from: &Vector,
        sub: &NameSet,
        most: usize,
    ) -> Result<NameSet, NoMemory>
        requires writer { writer < 32 }
        requires latest { AreLatest (row_of self.now writer) latest.now }
        ensures set { IfOk result (λ set. IsSetWithin most set (λ o. (has sub.now o ≡ false) × WroteAbove self.now writer (clock_of from.now writer) o)) }
        ensures by_stamp { IsByStamp self.now }
    {
        self.by_stamp();
        latest.first_above(alloc, from.at(writer), sub, most)
    }

    // By name the latest writes of a node, where no known write of it is past the end, its names are listed, and more of
    // its writes are above the clock than it has names.
    fn latest_above(&self, writer: u32, from: u64, to: u64) -> Option<&Latest>
        requires { writer < 32 }
        ensures up_to { IfSome (option_copied result) (λ l. (x : WriteRec) → Has self.now x → x.stamp.node ≡ writer → x.stamp.clock ≤ to) }
        ensures latest { IfSome (option_copied result) (AreLatest (row_of self.now writer)) }
    {
        if self.is_up_to(writer, to) {
            self.rows[writer as usize].latest_above(from)
        } else {
            None
        }
    }

    // Adds the names of a node's writes above one clock, up to another, that are none of these: where it can be, by the
    // latest write to each name.
    fn omit(
        &self,
        writer: u32,
        from: u64,
        to: u64,
        sub: &NameSet,
        names: &mut Collector,
    ) -> Result<(), NoMemory>
        requires { writer < 32 }
        ensures { OnOk result ((o : List ℕ) → IsName o → IsTrue (is_gathered names.new o) ↔ (IsTrue (is_gathered names.old o) ⊎ IsOmittedOf self.now sub.now writer from to o)) }
    {
        if to <= from {
            return Ok(());
        }
        match self.latest_above(writer, from, to) {
            Some(latest) => self.omit_above(writer, latest, from, sub, names),
            None => self.omit_each(writer, from, to, sub, names),
        }
    }

    // The same, by each write.
    fn omit_each(
        &self,
        writer: u32,
        from: u64,
        to: u64,
        sub: &NameSet,
        names: &mut Collector,
    ) -> Result<(), NoMemory>
        requires { writer < 32 }
        ensures { OnOk result ((o : List ℕ) → IsName o → IsTrue (is_gathered names.new o) ↔ (IsTrue (is_gathered names.old o) ⊎ IsOmittedOf self.now sub.now writer from to o)) }
    {
        let mut clock = from;
        let mut place = 0usize;
        while let Some(write) = self.first_between(writer, clock, to, &mut place) {
            names.add_outside(sub, &write.name)?;
            clock = write.stamp.clock();
        }
        Ok(())
    }

    // Whether a known write to one of the names may lie past the position, by at most so many looks at the intervals and
    // the names of the nodes that wrote past it. An interval takes time logarithmic in the names of its node.
    pub(crate) fn may_wait(&self, pos: &Vector, sub: &NameSet, most: usize) -> bool
        ensures { result ≡ false → (x : WriteRec) → ¬ IsWaiting self.now pos.now sub.now x }
    {
        self.by_stamp();
        let mut left = most;
        for n in 0..self.nodes() {
            if self.may_have_past(n, pos.at(n), sub, &mut left) {
                return true;
            }
        }
        false
    }

    // Whether the node may have written to one of the names above the clock.
    fn may_have_past(&self, writer: u32, from: u64, sub: &NameSet, left: &mut usize) -> bool
        requires { writer < 32 }
        ensures { result ≡ false → (x : WriteRec) → Has self.now x → x.stamp.node ≡ writer → from < x.stamp.clock → has sub.now x.name ≡ false }
    {
        self.rows[writer as usize].may_have_above(from, sub, left)
    }

    // Adds the names of the node's writes above the clock that are none of these.
    fn omit_above(
        &self,
        writer: u32,
        latest: &Latest,
        clock: u64,
        sub: &NameSet,
        names: &mut Collector,
    ) -> Result<(), NoMemory>
        requires writer { writer < 32 }
        requires latest { AreLatest (row_of self.now writer) latest.now }
        ensures { OnOk result ((o : List ℕ) → IsName o → IsTrue (is_gathered names.new o) ↔ (IsTrue (is_gathered names.old o) ⊎ ((has sub.now o ≡ false) × WroteAbove self.now writer clock o))) }
    {
        self.by_stamp();
        latest.gather(clock, sub, names)
    }

    // The node's first known write above one clock, if it is not above another, looked for at this place first.
    fn first_between(&self, writer: u32, from: u64, to: u64, place: &mut usize) -> Option<&WriteRec>
        requires { writer < 32 }
        ensures some { IfSome (option_copied result) (λ w. (w.stamp.clock ≤ to) × IsFirstAbove self.now writer from (Some w)) }
        ensures none { IfNone (option_copied result) ((x : WriteRec) → Has self.now x → x.stamp.node ≡ writer → from < x.stamp.clock → to < x.stamp.clock) }
    {
        match self.first_above(writer, from, place) {
            Some(write) => up_to(write, to),
            None => None,
        }
    }

    // Whether no known write of the node is past the clock.
    fn is_up_to(&self, writer: u32, clock: u64) -> bool
        requires { writer < 32 }
        ensures { IsTrue result → (x : WriteRec) → Has self.now x → x.stamp.node ≡ writer → x.stamp.clock ≤ clock }
    {
        self.rows[writer as usize].is_up_to(clock)
    }

    // Each known write is kept under its stamp.
    pub(crate) fn by_stamp(&self)
        ensures { IsByStamp self.now }
    {
        let _ = &self.rows;
    }

    // Whether the write is known, in time logarithmic in its node's writes, and past the last of them in constant time.
    pub(crate) fn has(&self, write: &WriteRec) -> bool
        ensures { IsTrue result → Has self.now write.now }
    {
        let mut place = 0;
        match self.first_above(write.stamp.node(), write.stamp.clock() - 1, &mut place) {
            Some(known) => known == write,
            None => false,
        }
    }

    // The known write of the node with the least clock above this one. It counts no step, so no other module has it.
    // It is looked for at this place first.
    #[inline]
    fn first_above(&self, writer: u32, clock: u64, place: &mut usize) -> Option<&WriteRec>
        requires { writer < 32 }
        ensures { IsFirstAbove self.now writer clock (option_copied result) }
    {
        self.rows[writer as usize].first_above(clock, place)
    }
}

// The write, if its clock is not above this one.
fn up_to(write: &WriteRec, clock: u64) -> Option<&WriteRec>
    ensures some { IfSome (option_copied result) (λ w. (w ≡ write.now) × (w.stamp.clock ≤ clock)) }
    ensures none { IfNone (option_copied result) (clock < write.now.stamp.clock) }
{
    if write.stamp.clock() <= clock {
        Some(write)
    } else {
        None
    }
}

fn rows(alloc: Global) -> Result<Vec<Writes>, NoMemory>
    ensures len { IfOk result (λ rows. length rows.items ≡ 32) }
    ensures none { IfOk result (λ rows. (n : ℕ) → slice_index_or rows.items n [] ≡ []) }
{
    let mut rows = Vec::with_capacity(alloc, NODES as usize)?;
    for _ in 0..NODES {
        rows.push(Writes::new(alloc))?;
    }
    Ok(rows)
}

// The newest write of each name in each node's row. What holds of the rows does not change where memory is wanting.
fn list_names(alloc: Global, rows: &mut Vec<Writes>) -> Result<(), NoMemory>
    requires len { length rows.old.items ≡ 32 }
    requires by_stamp { IsByStamp rows.old.items }
    ensures { rows.new.items ≡ rows.old.items }
{
    for n in 0..NODES {
        let row = &mut rows[n as usize];
        row.list_names(alloc)?;
    }
    Ok(())
}

// Of the first so many nodes, behind which none wrote.
fn forget(rows: &mut Vec<Writes>, nodes: u32, cut: &Vector)
    requires len { length rows.old.items ≡ 32 }
    requires most { nodes ≤ 32 }
    requires within { IsWithin nodes rows.old.items }
    ensures len { length rows.new.items ≡ 32 }
    ensures each { (n : ℕ) → n < 32 → IsForgottenUpTo (clock_of cut.now n) (slice_index_or rows.old.items n []) (slice_index_or rows.new.items n []) }
{
    for n in 0..nodes {
        let row = &mut rows[n as usize];
        row.forget(cut.at(n));
    }
}
