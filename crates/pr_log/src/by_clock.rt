// Writes by their clocks.
ghost use Rattle.pr_inval.specs.declared.write_rec.WriteRec.{WriteRec};
ghost use Rattle.pr_log.specs.Entries.{IsFirstEntry, IsLesserEntry, Rise, entry_of, without};
ghost use Rattle.pr_log.specs.Known.{IsForgottenUpTo, at_clock, count_above};
ghost use Rattle.std.specs.BTreeMap.{insert_entry};
ghost use Rattle.std.specs.Map.{lookup};
ghost use Rattle.std.specs.BTreeMap.Range.{IsLeBy, IsLtBy};
ghost use Rattle.std.specs.Ordering.{is_eq, nat_cmp};
ghost use Rattle.std.specs.Prelude.{◌≡◌, ◌≢◌, ◌≤◌, ◌<◌, ◌+◌, ◌∷◌, ◌++◌, ℕ, [], None, IfNone, IfSome, IsSome, OnErr, OnOk, Some, IsTrue, cond, is_some, length, slice_index_or, zip};

use pr_inval::WriteRec;
use pr_stamps::{NoMemory, drop_front};
use std::alloc::Global;
use std::collections::BTreeMap;
use std::marker::Model;
use std::ops::Bound;

type Map = BTreeMap<u64, WriteRec>;

// Writes with their clocks. Those that came in the order of their clocks, as nearly all do, stand in a list beside
// their clocks, which are searched from their end, where streams ask, and the others in a map.
#[derive(Drop)]
pub struct ByClock {
    clocks: Vec<u64>,
    writes: Vec<WriteRec>,
    late: Map,
}

impl Model for ByClock {
    ghost use Rattle.std.specs.Prelude.{◌≡◌, ◌++◌, List, ℕ, length, zip};
    ghost use Rattle.pr_inval.specs.declared.write_rec.WriteRec.{WriteRec};
    ghost use Rattle.pr_log.specs.Entries.{Rise};

    ghost Value = { List (ℕ × WriteRec) };

    ghost view = { λ b. zip b.clocks.items b.writes.items ++ b.late.entries };

    ghost invariant = { λ b. Rise b.clocks.items × (length b.clocks.items ≡ length b.writes.items) };
}

impl ByClock {
    pub fn new(alloc: Global) -> ByClock
        ensures { result ≡ [] }
    {
        ByClock {
            clocks: Vec::new(alloc),
            writes: Vec::new(alloc),
            late: BTreeMap::new(alloc),
        }
    }

    // Keeps a write at a clock that has none, past the last clock in amortised constant time, and before it in
    // logarithmic time.
    pub fn insert(&mut self, clock: u64, write: &WriteRec) -> Result<(), NoMemory>
        requires { at_clock self.old clock ≡ None }
        ensures ok { OnOk result ((c : ℕ) → at_clock self.new c ≡ cond (is_eq (nat_cmp clock c)) (Some write.now) (at_clock self.old c)) }
        ensures few { OnOk result ((c : ℕ) → count_above self.new c ≤ count_above self.old c + 1) }
        ensures back { OnOk result (without clock self.new ≡ self.old) }
        ensures err { OnErr result (self.new ≡ self.old) }
    {
        if is_past(&self.clocks, clock) {
            push_both(&mut self.clocks, clock, &mut self.writes, write)?;
        } else {
            put_late(&mut self.late, clock, write)?;
        }
        Ok(())
    }

    // Takes out the write at the clock, in time linear in the writes.
    pub fn remove(&mut self, clock: u64)
        ensures { self.new ≡ without clock self.old }
    {
        take_out(&mut self.clocks, &mut self.writes, clock);
        self.late.retain(|kept, _| *kept != clock);
    }

    // Whether a write is kept at the clock, in logarithmic time.
    pub fn has(&self, clock: u64) -> bool
        ensures { result ≡ is_some (at_clock self.now clock) }
    {
        place_of(&self.clocks, clock).is_some() || self.late.contains_key(&clock)
    }

    // The first write above the clock with its clock, and the place at which it was found. It is looked for at this place
    // and the next one, in constant time, and then in time logarithmic in the writes above it; and among the late ones in
    // time logarithmic in these.
    #[inline(never)]
    pub fn first_above(&self, clock: u64, place: &mut usize) -> Option<(u64, &WriteRec)>
        ensures { IsFirstEntry self.now clock (entry_of result) }
    {
        lesser(
            first_in_order(&self.clocks, &self.writes, clock, place),
            first_late(&self.late, clock),
        )
    }

    // At most so many writes are above the clock, in logarithmic time.
    pub fn most_above(&self, clock: u64) -> usize {
        let above = self.clocks.len() - up_to(&self.clocks, clock);
        above.saturating_add(self.late.len())
    }

    // Drops the writes up to the clock, in time linear in the writes.
    pub fn forget(&mut self, clock: u64)
        ensures { IsForgottenUpTo clock self.old self.new }
    {
        let count = up_to(&self.clocks, clock);
        drop_front(&mut self.clocks, count);
        drop_front(&mut self.writes, count);
        self.late.retain(|kept, _| *kept > clock);
    }
}

// Adds the clock and the item, or neither, in amortised constant time.
fn push_both<T: Copy + Drop>(
    clocks: &mut Vec<u64>,
    clock: u64,
    items: &mut Vec<T>,
    item: &T,
) -> Result<(), NoMemory>
    ensures clocks { OnOk result (clocks.new.items ≡ clocks.old.items ++ clock ∷ []) }
    ensures items { OnOk result (items.new.items ≡ items.old.items ++ item.now ∷ []) }
    ensures err { OnErr result ((clocks.new.items ≡ clocks.old.items) × (items.new.items ≡ items.old.items)) }
{
    items.reserve(1)?;
    clocks.push(clock)?;
    items.push_reserved(*item);
    Ok(())
}

// Puts the item at the clock, or nothing, in logarithmic time.
fn put_late<T: Copy + Drop>(
    late: &mut BTreeMap<u64, T>,
    clock: u64,
    item: &T,
) -> Result<(), NoMemory>
    ensures ok { OnOk result (late.new.entries ≡ insert_entry nat_cmp late.old.entries clock item.now) }
    ensures at { OnOk result ((c : ℕ) → lookup (λ k. is_eq (nat_cmp c k)) late.new.entries ≡ cond (is_eq (nat_cmp clock c)) (Some item.now) (lookup (λ k. is_eq (nat_cmp c k)) late.old.entries)) }
    ensures err { OnErr result (late.new.entries ≡ late.old.entries) }
{
    late.insert(clock, *item)?;
    Ok(())
}

// Takes out the clock with its write, in time linear in those behind them.
fn take_out(clocks: &mut Vec<u64>, writes: &mut Vec<WriteRec>, clock: u64)
    requires order { Rise clocks.old.items }
    requires pairs { length clocks.old.items ≡ length writes.old.items }
    ensures order { Rise clocks.new.items }
    ensures pairs { length clocks.new.items ≡ length writes.new.items }
    ensures out { zip clocks.new.items writes.new.items ≡ without clock (zip clocks.old.items writes.old.items) }
{
    let Some(at) = place_of(clocks, clock) else {
        return;
    };
    clocks.remove(at);
    writes.remove(at);
}

// Whether the clock is above the last one.
fn is_past(clocks: &[u64], clock: u64) -> bool
    requires { Rise clocks.now }
    ensures { IsTrue result → (k : ℕ) (d : ℕ) → k < length clocks.now → slice_index_or clocks.now k d < clock }
{
    if clocks.is_empty() {
        return true;
    }
    clocks[clocks.len() - 1] < clock
}

// The first entry above the clock, and its place, looked for at this one first.
fn first_in_order<'a>(
    clocks: &[u64],
    writes: &'a [WriteRec],
    clock: u64,
    place: &mut usize,
) -> Option<(u64, &'a WriteRec)>
    requires order { Rise clocks.now }
    requires pairs { length clocks.now ≡ length writes.now }
    ensures { IsFirstEntry (zip clocks.now writes.now) clock (entry_of result) }
{
    let at = up_to_near(clocks, clock, *place);
    *place = at;
    if at == clocks.len() {
        return None;
    }
    Some((clocks[at], &writes[at]))
}

// The place of the clock.
fn place_of(clocks: &[u64], clock: u64) -> Option<usize>
    requires { Rise clocks.now }
    ensures within { IfSome result (λ at. at < length clocks.now) }
    ensures found { IfSome result (λ at. (d : ℕ) → slice_index_or clocks.now at d ≡ clock) }
    ensures none { IfNone result ((k : ℕ) (d : ℕ) → k < length clocks.now → slice_index_or clocks.now k d ≢ clock) }
{
    let last = up_to(clocks, clock).checked_sub(1)?;
    if clocks[last] == clock {
        Some(last)
    } else {
        None
    }
}

// How many of the clocks are at most this one: so many, or one more, or else as many as a search finds.
fn up_to_near(clocks: &[u64], clock: u64, near: usize) -> usize
    requires { Rise clocks.now }
    ensures most { result ≤ length clocks.now }
    ensures within { (k : ℕ) (d : ℕ) → k < result → slice_index_or clocks.now k d ≤ clock }
    ensures above { (k : ℕ) (d : ℕ) → result ≤ k → k < length clocks.now → clock < slice_index_or clocks.now k d }
{
    if is_place(clocks, clock, near) {
        return near;
    }
    let next = near.saturating_add(1);
    if is_place(clocks, clock, next) {
        return next;
    }
    up_to(clocks, clock)
}

// Whether just so many of the clocks are at most this one.
fn is_place(clocks: &[u64], clock: u64, place: usize) -> bool
    requires { Rise clocks.now }
    ensures most { IsTrue result → place ≤ length clocks.now }
    ensures within { IsTrue result → (k : ℕ) (d : ℕ) → k < place → slice_index_or clocks.now k d ≤ clock }
    ensures above { IsTrue result → (k : ℕ) (d : ℕ) → place ≤ k → k < length clocks.now → clock < slice_index_or clocks.now k d }
{
    is_up_to(clocks, clock, place) && is_above(clocks, clock, place)
}

// Whether there are so many clocks, each at most this one.
fn is_up_to(clocks: &[u64], clock: u64, place: usize) -> bool
    requires { Rise clocks.now }
    ensures most { IsTrue result → place ≤ length clocks.now }
    ensures within { IsTrue result → (k : ℕ) (d : ℕ) → k < place → slice_index_or clocks.now k d ≤ clock }
{
    if place > clocks.len() {
        return false;
    }
    if place > 0 && clocks[place - 1] > clock {
        return false;
    }
    true
}

// Whether each clock from this place on is above this one.
fn is_above(clocks: &[u64], clock: u64, place: usize) -> bool
    requires { Rise clocks.now }
    ensures { IsTrue result → (k : ℕ) (d : ℕ) → place ≤ k → k < length clocks.now → clock < slice_index_or clocks.now k d }
{
    if place < clocks.len() {
        clocks[place] > clock
    } else {
        true
    }
}

// How many of the clocks are at most this one, in time logarithmic in those above it.
fn up_to(clocks: &[u64], clock: u64) -> usize
    requires { Rise clocks.now }
    ensures most { result ≤ length clocks.now }
    ensures within { (k : ℕ) (d : ℕ) → k < result → slice_index_or clocks.now k d ≤ clock }
    ensures above { (k : ℕ) (d : ℕ) → result ≤ k → k < length clocks.now → clock < slice_index_or clocks.now k d }
{
    let start = before(clocks, clock);
    start + clocks[start..].partition_point(|kept| *kept <= clock)
}

// A place before which all clocks are at most this one, found from the end by steps that double.
fn before(clocks: &[u64], clock: u64) -> usize
    requires { Rise clocks.now }
    ensures most { result ≤ length clocks.now }
    ensures within { (k : ℕ) (d : ℕ) → k < result → slice_index_or clocks.now k d ≤ clock }
{
    let len = clocks.len();
    let mut back: usize = 1;
    while back < len {
        let at = len - back;
        if clocks[at] <= clock {
            return at;
        }
        back = back.saturating_mul(2);
    }
    0
}

// The first entry of the map above the clock.
fn first_late(late: &Map, clock: u64) -> Option<(u64, &WriteRec)>
    ensures entry { IfSome result (λ e. at_clock late.now.entries e.0 ≡ Some e.1.now) }
    ensures above { IfSome result (λ e. clock < e.0) }
    ensures first { IfSome result (λ e. (d : ℕ) → IsLtBy nat_cmp clock d → IsSome (at_clock late.now.entries d) → IsLeBy nat_cmp e.0 d) }
    ensures none { IfNone result ((d : ℕ) → IsLtBy nat_cmp clock d → at_clock late.now.entries d ≡ None) }
{
    if late.is_empty() {
        return None;
    }
    match late
        .range((Bound::Excluded(clock), Bound::Unbounded))
        .next()
    {
        Some((first, write)) => Some((*first, write)),
        None => None,
    }
}

// The entry with the lesser clock.
fn lesser<'a>(
    first: Option<(u64, &'a WriteRec)>,
    second: Option<(u64, &'a WriteRec)>,
) -> Option<(u64, &'a WriteRec)>
    ensures { IsLesserEntry (entry_of first.entry) (entry_of second.entry) (entry_of result) }
{
    match (first, second) {
        (Some(a), Some(b)) => Some(if b.0 < a.0 { b } else { a }),
        (Some(a), None) => Some(a),
        (None, _) => second,
    }
}
