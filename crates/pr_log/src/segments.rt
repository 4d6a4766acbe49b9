// The dark names of one node's points.
ghost use Rattle.pr_log.specs.Tail.{AreBefore, with_tail};
ghost use Rattle.pr_log.specs.Sets.{BeginsOrStands, IsDarkAt, IsNarrowed, begins_at, is_gathered, is_lit_at, standing};
ghost use Rattle.pr_names.specs.Name.{IsName};
ghost use Rattle.pr_names.specs.Span.{Span};
ghost use Rattle.pr_sets.specs.Spans.{has};
ghost use Rattle.std.specs.BTreeMap.Range.{IsLeBy};
ghost use Rattle.std.specs.Option.{option_copied};
ghost use Rattle.std.specs.Ordering.{is_lt, nat_cmp};
ghost use Rattle.std.specs.Prelude.{◌≡◌, ◌≤◌, ◌<◌, ◌+◌, ◌-◌, ◌⊎◌, ◌↔◌, ◌||◌, ℕ, List, [], not, IfNone, IfOk, IfSome, IsSome, IsTrue, OnOk, None, Some, false};

use crate::beginnings::{Map, begin_unless_same, collect, forget, refine_map, stands_within};
use crate::collector::Collector;
use crate::tail::Tail;
use pr_sets::NameSet;
use pr_stamps::NoMemory;
use std::alloc::Global;
use std::collections::BTreeMap;
use std::marker::Model;

// The dark sets by the clocks at which they begin: each stands up to the clock before the next one. Where none has
// begun, every name is dark. Sets that follow one another differ. The one that begins last lies beside the map, since it
// alone begins later each time where points are told in order.
#[derive(Drop)]
pub struct Segments {
    alloc: Global,
    sets: Map,
    tail: Option<Tail>,
}

impl Model for Segments {
    ghost use Rattle.std.specs.Prelude.{List, ℕ};
    ghost use Rattle.pr_names.specs.Span.{Span};
    ghost use Rattle.pr_log.specs.Tail.{AreBefore, with_tail};

    ghost Value = { List (ℕ × List Span) };

    ghost view = { λ s. with_tail s.tail s.sets.entries };

    ghost invariant = { λ s. AreBefore s.tail s.sets.entries };
}

impl Segments {
    pub fn new(alloc: Global) -> Segments
        ensures { result ≡ [] }
    {
        Segments {
            alloc,
            sets: BTreeMap::new(alloc),
            tail: None,
        }
    }

    // At the clocks from `lo` to `hi` the names that the target lacks are lit too. It takes time logarithmic in the
    // sets, for each set that stands there; constant time where the last begins at `lo` and what is left of it has the
    // names of the one before it.
    pub fn refine(&mut self, lo: u64, hi: u64, target: &NameSet) -> Result<(), NoMemory>
        requires some { 1 ≤ lo }
        requires order { lo ≤ hi }
        requires most { hi ≤ 4611686018427387903 }
        ensures within { OnOk result ((o : List ℕ) (c : ℕ) → IsName o → lo ≤ c → c ≤ hi → is_lit_at self.new o c ≡ (is_lit_at self.old o c || not (has target.now o))) }
        ensures others { OnOk result ((o : List ℕ) (c : ℕ) → IsName o → (c < lo) ⊎ (hi < c) → is_lit_at self.new o c ≡ is_lit_at self.old o c) }
    {
        if tells_nothing(&self.sets, &self.tail, lo, hi, target) {
            return Ok(());
        }
        let tail = self.tail.take();
        self.tail = refine(&mut self.sets, self.alloc, tail, lo, hi, target)?;
        Ok(())
    }

    // Forgets sets that stand at no clock above this one, each in logarithmic time.
    pub fn forget(&mut self, clock: u64)
        requires { clock ≤ 4611686018427387903 }
        ensures { (o : List ℕ) (c : ℕ) → clock < c → is_lit_at self.new o c ≡ is_lit_at self.old o c }
    {
        match &self.tail {
            None => forget(&mut self.sets, clock),
            Some(tail) => forget_before(&mut self.sets, tail, clock),
        }
    }

    // Adds the names that are dark at one of the clocks, in time logarithmic in the sets, for each set that stands
    // there.
    pub fn collect(&self, lo: u64, hi: u64, names: &mut Collector) -> Result<(), NoMemory>
        requires order { lo ≤ hi }
        requires most { hi ≤ 4611686018427387903 }
        ensures { OnOk result ((o : List ℕ) → IsName o → IsTrue (is_gathered names.new o) ↔ (IsTrue (is_gathered names.old o) ⊎ IsDarkAt self.now lo hi o)) }
    {
        match &self.tail {
            None => collect(&self.sets, self.alloc, lo, hi, names),
            Some(tail) => collect_with(&self.sets, self.alloc, tail, lo, hi, names),
        }
    }
}

// Whether one set stands at all these clocks, and has only names of the target, as where the same was told before.
fn tells_nothing(sets: &Map, tail: &Option<Tail>, lo: u64, hi: u64, target: &NameSet) -> bool
    requires before { AreBefore tail.now sets.now.entries }
    requires most { hi ≤ 4611686018427387903 }
    ensures { IsTrue result → (o : List ℕ) (c : ℕ) → IsName o → lo ≤ c → c ≤ hi → is_lit_at (with_tail tail.now sets.now.entries) o c ≡ (is_lit_at (with_tail tail.now sets.now.entries) o c || not (has target.now o)) }
{
    match tail {
        None => stands_within(sets, lo, hi, target),
        Some(tail) => stands_with(sets, tail, lo, hi, target),
    }
}

// The same, where a set begins last.
fn stands_with(sets: &Map, tail: &Tail, lo: u64, hi: u64, target: &NameSet) -> bool
    requires before { AreBefore (Some tail.now) sets.now.entries }
    requires most { hi ≤ 4611686018427387903 }
    ensures { IsTrue result → (o : List ℕ) (c : ℕ) → IsName o → lo ≤ c → c ≤ hi → is_lit_at (with_tail (Some tail.now) sets.now.entries) o c ≡ (is_lit_at (with_tail (Some tail.now) sets.now.entries) o c || not (has target.now o)) }
{
    if tail.start <= lo {
        return tail.set.within(target);
    }
    if tail.start <= hi {
        return false;
    }
    stands_within(sets, lo, hi, target)
}

// The names that the target lacks are lit too. The answer is the set that begins last then.
fn refine(
    sets: &mut Map,
    alloc: Global,
    tail: Option<Tail>,
    lo: u64,
    hi: u64,
    target: &NameSet,
) -> Result<Option<Tail>, NoMemory>
    requires before { AreBefore tail sets.old.entries }
    requires some { 1 ≤ lo }
    requires order { lo ≤ hi }
    requires most { hi ≤ 4611686018427387903 }
    ensures before { IfOk result (λ t. AreBefore t sets.new.entries) }
    ensures within { IfOk result (λ t. (o : List ℕ) (c : ℕ) → IsName o → lo ≤ c → c ≤ hi → is_lit_at (with_tail t sets.new.entries) o c ≡ (is_lit_at (with_tail tail sets.old.entries) o c || not (has target.now o))) }
    ensures others { IfOk result (λ t. (o : List ℕ) (c : ℕ) → IsName o → (c < lo) ⊎ (hi < c) → is_lit_at (with_tail t sets.new.entries) o c ≡ is_lit_at (with_tail tail sets.old.entries) o c) }
{
    match tail {
        None => refine_map(sets, alloc, lo, hi, target),
        Some(tail) => refine_behind(sets, alloc, tail, lo, hi, target),
    }
}

// The same, where a set begins last.
fn refine_behind(
    sets: &mut Map,
    alloc: Global,
    tail: Tail,
    lo: u64,
    hi: u64,
    target: &NameSet,
) -> Result<Option<Tail>, NoMemory>
    requires before { AreBefore (Some tail) sets.old.entries }
    requires some { 1 ≤ lo }
    requires order { lo ≤ hi }
    requires most { hi ≤ 4611686018427387903 }
    ensures before { IfOk result (λ t. AreBefore t sets.new.entries) }
    ensures within { IfOk result (λ t. (o : List ℕ) (c : ℕ) → IsName o → lo ≤ c → c ≤ hi → is_lit_at (with_tail t sets.new.entries) o c ≡ (is_lit_at (with_tail (Some tail) sets.old.entries) o c || not (has target.now o))) }
    ensures others { IfOk result (λ t. (o : List ℕ) (c : ℕ) → IsName o → (c < lo) ⊎ (hi < c) → is_lit_at (with_tail t sets.new.entries) o c ≡ is_lit_at (with_tail (Some tail) sets.old.entries) o c) }
{
    if tail.start == lo {
        return put_off(sets, alloc, tail, hi, target);
    }
    sets.insert(tail.start, tail.set)?;
    refine_map(sets, alloc, lo, hi, target)
}

// The last set begins behind `hi`, and what it shares with the target begins where it began, unless the set before it has
// the same names.
fn put_off(
    sets: &mut Map,
    alloc: Global,
    tail: Tail,
    hi: u64,
    target: &NameSet,
) -> Result<Option<Tail>, NoMemory>
    requires before { AreBefore (Some tail) sets.old.entries }
    requires some { 1 ≤ tail.start }
    requires order { tail.start ≤ hi }
    requires most { hi ≤ 4611686018427387903 }
    ensures before { IfOk result (λ t. AreBefore t sets.new.entries) }
    ensures within { IfOk result (λ t. (o : List ℕ) (c : ℕ) → IsName o → tail.start ≤ c → c ≤ hi → is_lit_at (with_tail t sets.new.entries) o c ≡ (is_lit_at (with_tail (Some tail) sets.old.entries) o c || not (has target.now o))) }
    ensures others { IfOk result (λ t. (o : List ℕ) (c : ℕ) → IsName o → (c < tail.start) ⊎ (hi < c) → is_lit_at (with_tail t sets.new.entries) o c ≡ is_lit_at (with_tail (Some tail) sets.old.entries) o c) }
{
    let left = tail.set.intersect(alloc, target)?;
    begin_unless_same(sets, tail.start, left)?;
    Ok(Some(Tail {
        start: hi + 1,
        set: tail.set,
    }))
}

// Forgets sets that stand at no clock above this one, beside the one that begins last.
fn forget_before(sets: &mut Map, tail: &Tail, clock: u64)
    requires before { AreBefore (Some tail.now) sets.old.entries }
    requires most { clock ≤ 4611686018427387903 }
    ensures before { AreBefore (Some tail.now) sets.new.entries }
    ensures lit { (o : List ℕ) (c : ℕ) → clock < c → is_lit_at (with_tail (Some tail.now) sets.new.entries) o c ≡ is_lit_at (with_tail (Some tail.now) sets.old.entries) o c }
{
    if tail.start <= clock + 1 {
        sets.clear();
    } else {
        forget(sets, clock);
    }
}

// Adds the names that are dark at one of the clocks, where a set begins last.
fn collect_with(
    sets: &Map,
    alloc: Global,
    tail: &Tail,
    lo: u64,
    hi: u64,
    names: &mut Collector,
) -> Result<(), NoMemory>
    requires before { AreBefore (Some tail.now) sets.now.entries }
    requires order { lo ≤ hi }
    requires most { hi ≤ 4611686018427387903 }
    ensures { OnOk result ((o : List ℕ) → IsName o → IsTrue (is_gathered names.new o) ↔ (IsTrue (is_gathered names.old o) ⊎ IsDarkAt (with_tail (Some tail.now) sets.now.entries) lo hi o)) }
{
    if tail.start <= lo {
        return names.add_copy(&tail.set);
    }
    if hi < tail.start {
        return collect(sets, alloc, lo, hi, names);
    }
    collect(sets, alloc, lo, tail.start - 1, names)?;
    names.add_copy(&tail.set)
}
