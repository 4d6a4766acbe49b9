// Sets of clocks.
ghost use Rattle.pr_gaps.specs.Ranges.{AreApart, IsIn, end_at};
ghost use Rattle.std.specs.Ordering.{is_eq, is_lt, nat_cmp};
ghost use Rattle.std.specs.BTreeMap.Range.{IsLeBy};
ghost use Rattle.std.specs.Prelude.{◌≡◌, ◌≤◌, ◌<◌, ◌+◌, ◌⊎◌, ◌↔◌, ℕ, [], IfNone, IfSome, IsSome, IsTrue, OnErr, OnOk, None, Some, cond, false};

use pr_stamps::{MAX, NoMemory};
use std::alloc::Global;
use std::collections::BTreeMap;
use std::marker::Model;
use std::ops::Bound;

// A set of clocks, as ranges that neither overlap nor touch: by the start of each its end.
#[derive(Drop)]
pub struct Ranges {
    ends: BTreeMap<u64, u64>,
}

impl Model for Ranges {
    ghost use Rattle.std.specs.Prelude.{List, ℕ};
    ghost use Rattle.pr_gaps.specs.Ranges.{AreApart, end_at};

    ghost Value = { List (ℕ × ℕ) };

    ghost view = { λ r. r.ends.entries };

    ghost invariant = { λ r. AreApart (end_at r.ends.entries) };
}

impl Ranges {
    pub fn new(alloc: Global) -> Ranges
        ensures { result ≡ [] }
    {
        Ranges {
            ends: BTreeMap::new(alloc),
        }
    }

    // The clocks from `lo` to `hi` are in the set too. It takes time logarithmic in the ranges, for each range that is
    // joined with these clocks. A range that begins at or before `lo` is the first of those, and grows where it stands.
    pub fn add(&mut self, lo: u64, hi: u64) -> Result<(), NoMemory>
        requires some { 1 ≤ lo }
        requires order { lo ≤ hi }
        requires most { hi ≤ 4611686018427387903 }
        ensures ok { OnOk result ((c : ℕ) → IsIn self.new c ↔ (IsIn self.old c ⊎ ((lo ≤ c) × (c ≤ hi)))) }
        ensures err { OnErr result ((c : ℕ) → IsIn self.new c → IsIn self.old c) }
    {
        let mut last = hi;
        while let Some((start, end)) = touching(&self.ends, lo, last) {
            last = last.max(end);
            if start <= lo {
                set_end(&mut self.ends, start, last);
                return Ok(());
            }
            self.ends.remove(&start);
        }
        self.ends.insert(lo, last)?;
        Ok(())
    }

    pub fn is_empty(&self) -> bool
        ensures { IsTrue result → (c : ℕ) → ¬ IsIn self.now c }
    {
        self.ends.is_empty()
    }

    // The ranges that touch the clocks from 1 up to this one go over to them; up to where they go then. It takes time
    // logarithmic in the ranges, for each that goes, and no memory.
    pub fn join_run(&mut self, run: u64) -> u64
        requires { run ≤ 4611686018427387903 }
        ensures most { result ≤ 4611686018427387903 }
        ensures same { (c : ℕ) → (((1 ≤ c) × (c ≤ result)) ⊎ IsIn self.new c) ↔ (((1 ≤ c) × (c ≤ run)) ⊎ IsIn self.old c) }
        ensures end { ¬ IsIn self.new (result + 1) }
    {
        let mut reached = run;
        while let Some((start, end)) = last_up_to(&self.ends, reached + 1) {
            reached = reached.max(end);
            self.ends.remove(&start);
        }
        reached
    }
}

// The range that begins at `start` ends at `end`.
fn set_end(ends: &mut BTreeMap<u64, u64>, start: u64, end: u64)
    requires { IsSome (end_at ends.old.entries start) }
    ensures { (s : ℕ) → end_at ends.new.entries s ≡ cond (is_eq (nat_cmp start s)) (Some end) (end_at ends.old.entries s) }
{
    if let Some(last) = ends.get_mut(&start) {
        *last = end;
    }
}

// The last range that overlaps or touches the clocks from `lo` to `hi`.
fn touching(ends: &BTreeMap<u64, u64>, lo: u64, hi: u64) -> Option<(u64, u64)>
    requires apart { AreApart (end_at ends.now.entries) }
    requires most { hi ≤ 4611686018427387903 }
    ensures range { IfSome result (λ r. end_at ends.now.entries r.0 ≡ Some r.1) }
    ensures near { IfSome result (λ r. (r.0 ≤ hi + 1) × (lo ≤ r.1 + 1)) }
    ensures last { IfSome result (λ r. (s e : ℕ) → end_at ends.now.entries s ≡ Some e → (s ≤ r.0) ⊎ (hi + 1 < s)) }
    ensures none { IfNone result ((s e : ℕ) → end_at ends.now.entries s ≡ Some e → (e + 1 < lo) ⊎ (hi + 1 < s)) }
{
    let (start, end) = last_up_to(ends, hi + 1)?;
    if lo <= end + 1 {
        Some((start, end))
    } else {
        None
    }
}

// The last range that begins at or before the clock, in constant time where that is the last of all.
fn last_up_to(ends: &BTreeMap<u64, u64>, most: u64) -> Option<(u64, u64)>
    ensures range { IfSome result (λ r. end_at ends.now.entries r.0 ≡ Some r.1) }
    ensures most { IfSome result (λ r. r.0 ≤ most) }
    ensures last { IfSome result (λ r. (s : ℕ) → IsLeBy nat_cmp s most → IsSome (end_at ends.now.entries s) → is_lt (nat_cmp r.0 s) ≡ false) }
    ensures none { IfNone result ((s : ℕ) → IsLeBy nat_cmp s most → end_at ends.now.entries s ≡ None) }
{
    if let Some(last) = last_of_all(ends, most) {
        return Some(last);
    }
    match ends
        .range((Bound::Unbounded, Bound::Included(most)))
        .next_back()
    {
        Some((start, end)) => Some((*start, *end)),
        None => None,
    }
}

// The last range of all, where it does not begin behind the clock.
fn last_of_all(ends: &BTreeMap<u64, u64>, most: u64) -> Option<(u64, u64)>
    ensures range { IfSome result (λ r. end_at ends.now.entries r.0 ≡ Some r.1) }
    ensures most { IfSome result (λ r. r.0 ≤ most) }
    ensures last { IfSome result (λ r. (s : ℕ) → IsSome (end_at ends.now.entries s) → is_lt (nat_cmp r.0 s) ≡ false) }
{
    let (start, end) = ends.last_key_value()?;
    if *start <= most {
        Some((*start, *end))
    } else {
        None
    }
}
