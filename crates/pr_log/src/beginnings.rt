// The dark sets of one node's points by the clocks at which they begin.
ghost use Rattle.pr_log.specs.Tail.{AreBefore, with_tail};
ghost use Rattle.pr_log.specs.Sets.{BeginsOrStands, IsDarkAt, IsNarrowed, begins_at, is_gathered, is_lit_at, standing};
ghost use Rattle.pr_names.specs.Name.{IsName};
ghost use Rattle.pr_names.specs.Span.{Span};
ghost use Rattle.pr_sets.specs.Spans.{has};
ghost use Rattle.std.specs.BTreeMap.Range.{IsLeBy};
ghost use Rattle.std.specs.Option.{option_copied};
ghost use Rattle.std.specs.Ordering.{is_lt, nat_cmp};
ghost use Rattle.std.specs.Prelude.{◌≡◌, ◌≤◌, ◌<◌, ◌+◌, ◌-◌, ◌⊎◌, ◌↔◌, ◌||◌, ℕ, List, [], not, IfNone, IfOk, IfSome, IsSome, IsTrue, OnOk, None, Some, false};

use crate::collector::{Collector, every_name};
use crate::tail::Tail;
use pr_sets::NameSet;
use pr_stamps::NoMemory;
use std::alloc::Global;
use std::collections::BTreeMap;
use std::ops::Bound;

pub type Map = BTreeMap<u64, NameSet>;

// At the clocks from `lo` to `hi` the names that the target lacks are lit too, where all sets are in the map. The answer is
// the one that begins last then, which is taken out.
pub fn refine_map(
    sets: &mut Map,
    alloc: Global,
    lo: u64,
    hi: u64,
    target: &NameSet,
) -> Result<Option<Tail>, NoMemory>
    requires some { 1 ≤ lo }
    requires order { lo ≤ hi }
    requires most { hi ≤ 4611686018427387903 }
    ensures before { IfOk result (λ t. AreBefore t sets.new.entries) }
    ensures within { IfOk result (λ t. (o : List ℕ) (c : ℕ) → IsName o → lo ≤ c → c ≤ hi → is_lit_at (with_tail t sets.new.entries) o c ≡ (is_lit_at sets.old.entries o c || not (has target.now o))) }
    ensures others { IfOk result (λ t. (o : List ℕ) (c : ℕ) → IsName o → (c < lo) ⊎ (hi < c) → is_lit_at (with_tail t sets.new.entries) o c ≡ is_lit_at sets.old.entries o c) }
{
    narrow_between(sets, alloc, lo, hi, target)?;
    Ok(take_last(sets))
}

// Takes out the set that begins last, if there is one.
fn take_last(sets: &mut Map) -> Option<Tail>
    ensures before { AreBefore result sets.new.entries }
    ensures lit { (o : List ℕ) (c : ℕ) → is_lit_at (with_tail result sets.new.entries) o c ≡ is_lit_at sets.old.entries o c }
{
    let (start, set) = sets.pop_last()?;
    Some(Tail { start, set })
}

// Between the clocks the names that the target lacks are lit too, where all sets are in the map.
fn narrow_between(
    sets: &mut Map,
    alloc: Global,
    lo: u64,
    hi: u64,
    target: &NameSet,
) -> Result<(), NoMemory>
    requires some { 1 ≤ lo }
    requires order { lo ≤ hi }
    requires most { hi ≤ 4611686018427387903 }
    ensures within { OnOk result ((o : List ℕ) (c : ℕ) → IsName o → lo ≤ c → c ≤ hi → is_lit_at sets.new.entries o c ≡ (is_lit_at sets.old.entries o c || not (has target.now o))) }
    ensures others { OnOk result ((o : List ℕ) (c : ℕ) → IsName o → (c < lo) ⊎ (hi < c) → is_lit_at sets.new.entries o c ≡ is_lit_at sets.old.entries o c) }
{
    split(sets, alloc, lo)?;
    split(sets, alloc, hi + 1)?;
    narrow(sets, alloc, lo, hi, target)?;
    join(sets, lo, hi + 1);
    Ok(())
}

// Forgets sets of the map that stand at no clock above this one.
pub fn forget(sets: &mut Map, clock: u64)
    requires { clock ≤ 4611686018427387903 }
    ensures lit { (o : List ℕ) (c : ℕ) → clock < c → is_lit_at sets.new.entries o c ≡ is_lit_at sets.old.entries o c }
    ensures others { (c : ℕ) → clock + 1 < c → begins_at sets.new.entries c ≡ begins_at sets.old.entries c }
{
    if let Some(last) = last_up_to(sets, clock + 1) {
        drop_below(sets, last);
    }
}

// Adds the names that are dark at one of the clocks by the sets of the map.
pub fn collect(
    sets: &Map,
    alloc: Global,
    lo: u64,
    hi: u64,
    names: &mut Collector,
) -> Result<(), NoMemory>
    requires order { lo ≤ hi }
    requires most { hi ≤ 4611686018427387903 }
    ensures { OnOk result ((o : List ℕ) → IsName o → IsTrue (is_gathered names.new o) ↔ (IsTrue (is_gathered names.old o) ⊎ IsDarkAt sets.now.entries lo hi o)) }
{
    names.add(dark_at(sets, alloc, lo)?)?;
    let mut clock = lo;
    while let Some((start, set)) = first_between(sets, clock + 1, hi) {
        names.add_copy(set)?;
        clock = start;
    }
    Ok(())
}

// Whether one set stands at all these clocks, and has only names of the target, as where the same was told before.
pub fn stands_within(sets: &Map, lo: u64, hi: u64, target: &NameSet) -> bool
    requires { hi ≤ 4611686018427387903 }
    ensures { IsTrue result → (o : List ℕ) (c : ℕ) → IsName o → lo ≤ c → c ≤ hi → is_lit_at sets.now.entries o c ≡ (is_lit_at sets.now.entries o c || not (has target.now o)) }
{
    match last_entry(sets, hi) {
        Some((start, set)) => start <= lo && set.within(target),
        None => false,
    }
}

// The set begins at the clock, unless the one before it has the same names.
pub fn begin_unless_same(sets: &mut Map, clock: u64, set: NameSet) -> Result<(), NoMemory>
    requires some { 1 ≤ clock }
    requires none { begins_at sets.old.entries clock ≡ None }
    ensures begins { OnOk result (BeginsOrStands (begins_at sets.new.entries) clock set) }
    ensures others { OnOk result ((c : ℕ) → ¬ (c ≡ clock) → begins_at sets.new.entries c ≡ begins_at sets.old.entries c) }
{
    if stands_at(sets, clock - 1, &set) {
        return Ok(());
    }
    sets.insert(clock, set)?;
    Ok(())
}

// Whether the set that stands at the clock has the same names.
fn stands_at(sets: &Map, clock: u64, set: &NameSet) -> bool
    ensures { IsTrue result → (a : List Span) × (standing (begins_at sets.now.entries) clock ≡ Some a) × ((o : List ℕ) → IsName o → has a o ≡ has set.now o) }
{
    match set_at(sets, clock) {
        Some(before) => same_names(before, set),
        None => false,
    }
}

// The names that are dark at the clock.
fn dark_at(sets: &Map, alloc: Global, clock: u64) -> Result<NameSet, NoMemory>
    ensures { IfOk result (λ set. (o : List ℕ) → IsName o → has set o ≡ not (is_lit_at sets.now.entries o clock)) }
{
    match set_at(sets, clock) {
        Some(set) => set.copy(alloc),
        None => every_name(alloc),
    }
}

// A set begins at the clock, with nothing changed.
fn split(sets: &mut Map, alloc: Global, clock: u64) -> Result<(), NoMemory>
    ensures here { OnOk result (IsSome (begins_at sets.new.entries clock)) }
    ensures others { OnOk result ((c : ℕ) → ¬ (c ≡ clock) → begins_at sets.new.entries c ≡ begins_at sets.old.entries c) }
    ensures lit { OnOk result ((o : List ℕ) (c : ℕ) → IsName o → is_lit_at sets.new.entries o c ≡ is_lit_at sets.old.entries o c) }
{
    if sets.contains_key(&clock) {
        return Ok(());
    }
    let set = dark_at(sets, alloc, clock)?;
    sets.insert(clock, set)?;
    Ok(())
}

// The sets that begin from `lo` to `hi` lose the names outside the target.
fn narrow(sets: &mut Map, alloc: Global, lo: u64, hi: u64, target: &NameSet) -> Result<(), NoMemory>
    requires order { lo ≤ hi }
    requires most { hi ≤ 4611686018427387903 }
    ensures within { OnOk result ((c : ℕ) → lo ≤ c → c ≤ hi → IsNarrowed target.now (begins_at sets.old.entries c) (begins_at sets.new.entries c)) }
    ensures others { OnOk result ((c : ℕ) → (c < lo) ⊎ (hi < c) → begins_at sets.new.entries c ≡ begins_at sets.old.entries c) }
{
    let mut clock = lo;
    while let Some((start, set)) = first_between(sets, clock, hi) {
        let narrowed = set.intersect(alloc, target)?;
        sets.insert(start, narrowed)?;
        clock = start + 1;
    }
    Ok(())
}

// Takes out each set that begins from `lo` to `hi` and has the names of the one before it.
fn join(sets: &mut Map, lo: u64, hi: u64)
    requires some { 1 ≤ lo }
    requires most { hi ≤ 4611686018427387904 }
    ensures { (o : List ℕ) (c : ℕ) → IsName o → is_lit_at sets.new.entries o c ≡ is_lit_at sets.old.entries o c }
{
    let mut clock = lo;
    while let Some((start, _)) = first_between(sets, clock, hi) {
        join_at(sets, start);
        clock = start + 1;
    }
}

// Takes out the set that begins at the clock, if it has the names of the one before it.
fn join_at(sets: &mut Map, clock: u64)
    requires { 1 ≤ clock }
    ensures { (o : List ℕ) (c : ℕ) → IsName o → is_lit_at sets.new.entries o c ≡ is_lit_at sets.old.entries o c }
{
    if repeats(sets, clock) {
        sets.remove(&clock);
    }
}

// Whether a set begins at the clock that has the names of the one before it.
fn repeats(sets: &Map, clock: u64) -> bool
    requires { 1 ≤ clock }
    ensures { IsTrue result → (a : List Span) × (b : List Span) × (standing (begins_at sets.now.entries) (clock - 1) ≡ Some a) × (begins_at sets.now.entries clock ≡ Some b) × ((o : List ℕ) → IsName o → has a o ≡ has b o) }
{
    match sets.get(&clock) {
        Some(set) => stands_at(sets, clock - 1, set),
        None => false,
    }
}

fn same_names(a: &NameSet, b: &NameSet) -> bool
    ensures { IsTrue result → (o : List ℕ) → IsName o → has a.now o ≡ has b.now o }
{
    a.count() == b.count() && a.within(b) && b.within(a)
}

fn drop_below(sets: &mut Map, clock: u64)
    ensures { (c : ℕ) → clock ≤ c → begins_at sets.new.entries c ≡ begins_at sets.old.entries c }
{
    while let Some(first) = first_below(sets, clock) {
        sets.remove(&first);
    }
}

// The set that stands at the clock.
fn set_at(sets: &Map, clock: u64) -> Option<&NameSet>
    ensures { option_copied result ≡ standing (begins_at sets.now.entries) clock }
{
    match last_entry(sets, clock) {
        Some(entry) => Some(entry.1),
        None => None,
    }
}

// The clock at which the set begins that stands at this one.
fn last_up_to(sets: &Map, clock: u64) -> Option<u64>
    ensures some { IfSome result (λ s. (s ≤ clock) × IsSome (begins_at sets.now.entries s)) }
    ensures none { IfNone result ((s : ℕ) → s ≤ clock → begins_at sets.now.entries s ≡ None) }
{
    match last_entry(sets, clock) {
        Some(entry) => Some(entry.0),
        None => None,
    }
}

// The last entry up to the clock, in constant time where that is the last of all.
fn last_entry(sets: &Map, clock: u64) -> Option<(u64, &NameSet)>
    ensures entry { IfSome result (λ e. begins_at sets.now.entries e.0 ≡ Some e.1.now) }
    ensures within { IfSome result (λ e. e.0 ≤ clock) }
    ensures last { IfSome result (λ e. (s : ℕ) → IsLeBy nat_cmp s clock → IsSome (begins_at sets.now.entries s) → is_lt (nat_cmp e.0 s) ≡ false) }
    ensures none { IfNone result ((s : ℕ) → IsLeBy nat_cmp s clock → begins_at sets.now.entries s ≡ None) }
{
    if let Some(last) = last_of_all(sets, clock) {
        return Some(last);
    }
    match sets
        .range((Bound::Unbounded, Bound::Included(clock)))
        .next_back()
    {
        Some((start, set)) => Some((*start, set)),
        None => None,
    }
}

// The last entry of all, where it is not past the clock.
fn last_of_all(sets: &Map, clock: u64) -> Option<(u64, &NameSet)>
    ensures entry { IfSome result (λ e. begins_at sets.now.entries e.0 ≡ Some e.1.now) }
    ensures within { IfSome result (λ e. e.0 ≤ clock) }
    ensures last { IfSome result (λ e. (s : ℕ) → IsSome (begins_at sets.now.entries s) → is_lt (nat_cmp e.0 s) ≡ false) }
{
    let (start, set) = sets.last_key_value()?;
    if *start <= clock {
        Some((*start, set))
    } else {
        None
    }
}

// The first entry from `lo` to `hi`.
fn first_between(sets: &Map, lo: u64, hi: u64) -> Option<(u64, &NameSet)>
    ensures entry { IfSome result (λ e. begins_at sets.now.entries e.0 ≡ Some e.1.now) }
    ensures within { IfSome result (λ e. (lo ≤ e.0) × (e.0 ≤ hi)) }
    ensures first { IfSome result (λ e. (s : ℕ) → lo ≤ s → s < e.0 → begins_at sets.now.entries s ≡ None) }
    ensures none { IfNone result ((s : ℕ) → lo ≤ s → s ≤ hi → begins_at sets.now.entries s ≡ None) }
{
    let (start, set) = first_from(sets, lo)?;
    if start <= hi {
        Some((start, set))
    } else {
        None
    }
}

// The first entry from the clock on.
fn first_from(sets: &Map, clock: u64) -> Option<(u64, &NameSet)>
    ensures entry { IfSome result (λ e. begins_at sets.now.entries e.0 ≡ Some e.1.now) }
    ensures from { IfSome result (λ e. clock ≤ e.0) }
    ensures first { IfSome result (λ e. (s : ℕ) → IsLeBy nat_cmp clock s → IsSome (begins_at sets.now.entries s) → IsLeBy nat_cmp e.0 s) }
    ensures none { IfNone result ((s : ℕ) → IsLeBy nat_cmp clock s → begins_at sets.now.entries s ≡ None) }
{
    match sets
        .range((Bound::Included(clock), Bound::Unbounded))
        .next()
    {
        Some((start, set)) => Some((*start, set)),
        None => None,
    }
}

// The first clock below this one at which a set begins.
fn first_below(sets: &Map, clock: u64) -> Option<u64>
    ensures { IfSome result (λ s. (s < clock) × IsSome (begins_at sets.now.entries s)) }
{
    match sets
        .range((Bound::Unbounded, Bound::Excluded(clock)))
        .next()
    {
        Some((start, _)) => Some(*start),
        None => None,
    }
}
