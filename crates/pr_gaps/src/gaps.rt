// The gap list of a node.
ghost use Rattle.pr_gaps.specs.Gaps.{IsCovered, IsLastPrecise, IsLeastUntold, IsNew, IsOwnTold, IsTargeted, IsLeastOutside, IsLesser, IsNodeOutside, IsToldIn, set_at};
ghost use Rattle.pr_vectors.specs.UpTo.{IsLastClock};
ghost use Rattle.pr_sets.specs.Sets.{rest_of, set_of};
ghost use Rattle.pr_gaps.specs.Rows.{HasPoint, IsRowCovered};
ghost use Rattle.pr_stamps.specs.Point.{Point};
ghost use Rattle.pr_names.specs.Name.{IsName};
ghost use Rattle.pr_sets.specs.Spans.{Meet, has};
ghost use Rattle.pr_vectors.specs.Vector.{Between, IsVector, Le, clock_of, raised};
ghost use Rattle.std.specs.Prelude.{◌≡◌, ◌≤◌, ◌<◌, ◌+◌, ◌⊎◌, ◌↔◌, ℕ, List, [], length, slice_index_or, true, false, IfOk, IfSome, IsErr, OnErr, OnOk};

use crate::row::Row;
use pr_names::Name;
use pr_sets::NameSet;
use pr_stamps::{NoMemory, Seq, Stamp};
use pr_vectors::{PackedVector, Vector, only_between};
use std::alloc::Global;
use std::marker::Model;

/// The points that a node was told of, for each of its sets and for the rest, as ranges of clocks that lie apart: a long
/// run of told points, or of untold ones, costs one range. Own points are one counter, the vector's own clock. After
/// want of memory it is spent: each later call that takes memory is refused, and of the points that it holds nothing is
/// said; its sets stay.
#[derive(Drop)]
pub struct Gaps {
    node: u32,
    sets: Seq<NameSet>,
    rest: NameSet,
    vector: Vector,
    rows: Vec<Row>,
    spent: bool,
}

impl Model for Gaps {
    ghost use Rattle.std.specs.Prelude.{◌≡◌, ◌<◌, ◌+◌, ℕ, List, length};
    ghost use Rattle.pr_gaps.specs.Gaps.{Told};
    ghost use Rattle.pr_sets.specs.Sets.{rest_of};
    ghost use Rattle.pr_names.specs.Name.{IsName};
    ghost use Rattle.pr_sets.specs.Spans.{has};

    ghost Value = { Told };

    ghost view = { λ g. record { node = g.node; sets = g.sets; rest = g.rest; vector = g.vector; rows = g.rows.items; spent = g.spent } };

    ghost invariant = { λ g. (g.node < 32) × (length g.rows.items ≡ length g.sets + 1) × ((o : List ℕ) → IsName o → has g.rest o ≡ rest_of g.sets o) };
}

impl Gaps {
    /// The gap list of a node with these sets, which share no names: no point is covered, and none is told. It takes
    /// time linear in the intervals of the sets, for each set.
    pub fn new(alloc: Global, node: u32, sets: Seq<NameSet>) -> Result<Gaps, NoMemory>
        requires { node < 32 }
        ensures { IfOk result (λ g. IsNew g node sets) }
    {
        let rest = rest(alloc, sets.as_slice())?;
        let rows = rows(alloc, sets.len())?;
        Ok(Gaps {
            node,
            sets,
            rest,
            vector: Vector::zero(),
            rows,
            spent: false,
        })
    }

    /// How many sets there are, the rest among them.
    pub fn sets(&self) -> usize
        ensures { result ≡ length self.now.sets + 1 }
    {
        self.rows.len()
    }

    /// The points that a message or an own write told, in constant time.
    pub fn vector(&self) -> &Vector
        ensures value { result.now ≡ self.now.vector }
        ensures range { IsVector result.now }
    {
        let _ = self.vector.at(0);
        &self.vector
    }

    /// The set of this number; the last is the rest.
    pub fn set(&self, index: usize) -> &NameSet
        requires { index ≤ length self.now.sets }
        ensures { (o : List ℕ) → IsName o → has result.now o ≡ set_at self.now.sets index o }
    {
        nth(self.sets.as_slice(), &self.rest, index)
    }

    /// The number of the set that has the name, in time linear in the sets and logarithmic in the intervals of each.
    pub fn set_of(&self, name: &Name) -> usize
        ensures within { result ≤ length self.now.sets }
        ensures value { set_at self.now.sets result ≡ set_of self.now.sets name.now }
    {
        let sets = self.sets.as_slice();
        for (index, set) in sets.iter().enumerate() {
            if set.has(name) {
                return index;
            }
        }
        sets.len()
    }

    /// The points of a message are told for each set that its target does not meet, and its end is joined to the
    /// vector. It takes time linear in the intervals of the target and of the sets; and for each set and node logarithmic
    /// in the ranges, for each range that is joined.
    pub fn cover(
        &mut self,
        from: &PackedVector,
        to: &PackedVector,
        target: &NameSet,
    ) -> Result<(), NoMemory>
        requires span { Le from.now to.now }
        requires from { Le from.now self.old.vector }
        ensures ok { OnOk result (IsCovered self.old self.new from.now to.now target.now) }
        ensures sets { self.new.sets ≡ self.old.sets }
        ensures works { OnOk result (self.new.spent ≡ false) }
        ensures err { OnErr result (self.new.spent ≡ true) }
        ensures spent { self.old.spent ≡ true → IsErr result }
    {
        if self.spent {
            return Err(NoMemory);
        }
        self.spent = true;
        cover_rows(
            &mut self.rows,
            self.sets.as_slice(),
            &self.rest,
            from,
            to,
            target,
        )?;
        self.vector.join_in(to);
        self.spent = false;
        Ok(())
    }

    /// Own points up to the clock are told, and the vector's own clock rises to it. It takes constant time and no
    /// memory.
    pub fn own(&mut self, clock: u64)
        requires { clock ≤ 4611686018427387903 }
        ensures told { IsOwnTold self.old self.new clock }
        ensures spent { self.new.spent ≡ self.old.spent }
    {
        raise(&mut self.vector, clock, self.node);
    }

    /// The least untold point of the set by stamp; None exactly where the set is precise, in time linear in the nodes.
    pub fn first_untold(&self, index: usize) -> Option<Stamp>
        requires { index ≤ length self.now.sets }
        ensures { IsLeastUntold self.now index result }
    {
        first_untold(&self.rows[index], self.node, &self.vector)
    }

    /// Per node the greatest covered clock up to which each point is told for the set, in time linear in the nodes.
    pub fn last_precise(&self, index: usize) -> Vector
        requires { index ≤ length self.now.sets }
        ensures value { IsLastPrecise self.now index result }
        ensures range { IsVector result }
    {
        last_precise(&self.rows[index], self.node, &self.vector)
    }
}

// A clock of a node is joined in.
fn raise(vector: &mut Vector, clock: u64, node: u32)
    requires node { node < 32 }
    requires most { clock ≤ 4611686018427387903 }
    ensures { vector.new ≡ raised vector.old (record { clock = clock; node = node }) }
{
    let _ = vector.at(0);
    if let Some(stamp) = Stamp::new(clock, node) {
        vector.raise(&stamp);
    }
}

fn first_untold(row: &Row, own: u32, vector: &Vector) -> Option<Stamp>
    ensures { IsLeastOutside (IsToldIn own vector.now row.now) vector.now 32 result }
{
    let count = vector.nodes();
    let mut least: Option<Stamp> = None;
    for n in 0..count {
        if let Some(found) = untold(row, own, n, vector) {
            least = Some(lesser(&least, &found));
        }
    }
    least
}

// The least covered point of one node that was not told.
fn untold(row: &Row, own: u32, node: u32, vector: &Vector) -> Option<Stamp>
    requires { node < 32 }
    ensures { IsNodeOutside (IsToldIn own vector.now row.now) vector.now node result }
{
    let clock = precise_clock(row, own, node, vector);
    if clock < vector.at(node) {
        Stamp::new(clock + 1, node)
    } else {
        None
    }
}

// The greatest covered clock of one node up to which each point was told.
fn precise_clock(row: &Row, own: u32, node: u32, vector: &Vector) -> u64
    requires { node < 32 }
    ensures value { IsLastClock (IsToldIn own vector.now row.now) vector.now node result }
    ensures range { IsVector vector.now }
{
    let most = vector.at(node);
    if node == own {
        most
    } else if most == 0 {
        0
    } else {
        row.run(node).min(most)
    }
}

fn last_precise(row: &Row, own: u32, vector: &Vector) -> Vector
    ensures value { (w : ℕ) → w < 32 → IsLastClock (IsToldIn own vector.now row.now) vector.now w (clock_of result w) }
    ensures range { IsVector result }
{
    let mut precise = Vector::zero();
    for n in 0..vector.nodes() {
        raise(&mut precise, precise_clock(row, own, n, vector), n);
    }
    let _ = precise.at(0);
    precise
}

// The lesser of the two stamps; the second where there is no first.
fn lesser(first: &Option<Stamp>, second: &Stamp) -> Stamp
    ensures { IsLesser first.now second.now result }
{
    match first {
        Some(first) => {
            if second.is_before(first) {
                *second
            } else {
                *first
            }
        }
        None => *second,
    }
}

// The set of this number; the last is the rest.
fn nth<'a>(sets: &'a [NameSet], rest: &'a NameSet, index: usize) -> &'a NameSet
    ensures { result.now ≡ slice_index_or sets.now index rest.now }
{
    if index < sets.len() {
        &sets[index]
    } else {
        rest
    }
}

// The points between the vectors are told for each set that the target does not meet.
fn cover_rows(
    rows: &mut Vec<Row>,
    sets: &[NameSet],
    rest: &NameSet,
    from: &PackedVector,
    to: &PackedVector,
    target: &NameSet,
) -> Result<(), NoMemory>
    ensures len { length rows.new.items ≡ length rows.old.items }
    ensures told { OnOk result ((i : ℕ) → i < length rows.old.items → IsTargeted from.now to.now target.now sets.now rest.now i (slice_index_or rows.new.items i []) (slice_index_or rows.old.items i [])) }
{
    let only = only_between(from, to);
    for index in 0..rows.len() {
        let set = nth(sets, rest, index);
        let row = &mut rows[index];
        cover_row(row, set, from, to, only, target)?;
    }
    Ok(())
}

// The points between the vectors, which only this node has, if it is given, are told, unless the target meets the set.
fn cover_row(
    row: &mut Row,
    set: &NameSet,
    from: &PackedVector,
    to: &PackedVector,
    only: Option<u32>,
    target: &NameSet,
) -> Result<(), NoMemory>
    requires range { IfSome only (λ n. n < 32) }
    requires rises { IfSome only (λ n. clock_of from.now n < clock_of to.now n) }
    requires alone { IfSome only (λ n. (k : ℕ) → k < 32 → clock_of from.now k < clock_of to.now k → k ≡ n) }
    ensures { OnOk result ((p : Point) → p.node < 32 → HasPoint row.new p ↔ (HasPoint row.old p ⊎ (Between from.now to.now p × ¬ Meet (has target.now) (has set.now)))) }
{
    if target.meets(set) {
        return Ok(());
    }
    cover_between(row, from, to, only)?;
    Ok(())
}

// The points between the vectors are told, which only this node has, if it is given.
fn cover_between(
    row: &mut Row,
    from: &PackedVector,
    to: &PackedVector,
    only: Option<u32>,
) -> Result<(), NoMemory>
    requires range { IfSome only (λ n. n < 32) }
    requires rises { IfSome only (λ n. clock_of from.now n < clock_of to.now n) }
    requires alone { IfSome only (λ n. (k : ℕ) → k < 32 → clock_of from.now k < clock_of to.now k → k ≡ n) }
    ensures { OnOk result (IsRowCovered row.old row.new from.now to.now) }
{
    match only {
        Some(node) => row.cover_one(node, from, to),
        None => row.cover(from, to),
    }
}

// The names that are in none of the sets.
fn rest(alloc: Global, sets: &[NameSet]) -> Result<NameSet, NoMemory>
    ensures { IfOk result (λ rest. (o : List ℕ) → IsName o → has rest o ≡ rest_of sets.now o) }
{
    let mut all = NameSet::empty(alloc);
    for set in sets {
        all = all.union(alloc, set)?;
    }
    all.complement(alloc)
}

// A row for each set and for the rest, with no point told.
fn rows(alloc: Global, sets: usize) -> Result<Vec<Row>, NoMemory>
    ensures len { IfOk result (λ rows. length rows.items ≡ sets + 1) }
    ensures none { IfOk result (λ rows. (i : ℕ) (p : Point) → ¬ HasPoint (slice_index_or rows.items i []) p) }
{
    let mut rows = Vec::new(alloc);
    rows.push(Row::new(alloc)?)?;
    for _ in 0..sets {
        rows.push(Row::new(alloc)?)?;
    }
    Ok(rows)
}
