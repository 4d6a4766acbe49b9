// A union of many sets.
ghost use Rattle.pr_log.specs.Sets.{is_any, is_gathered, is_in_any};
ghost use Rattle.pr_names.specs.Name.{IsName};
ghost use Rattle.pr_names.specs.Span.{holds};
ghost use Rattle.pr_sets.specs.Spans.{IsSet, has};
ghost use Rattle.std.specs.Prelude.{◌≡◌, ◌||◌, ◌&&◌, ◌++◌, ◌∷◌, ℕ, List, [], IfOk, IfSome, OnOk, MatchOption, None, true, false, not};
ghost use Rattle.std.specs.Str.{bytes_eq};

use pr_names::{Interval, Name};
use pr_sets::NameSet;
use pr_stamps::NoMemory;
use std::alloc::Global;
use std::collections::BTreeSet;
use std::marker::Model;

// Names and sets whose union is wanted. The sets that come first have the more
// intervals, so that each interval is moved a logarithmic number of times.
#[derive(Drop)]
pub struct Collector {
    alloc: Global,
    names: BTreeSet<Name>,
    sets: Vec<NameSet>,
}

impl Model for Collector {
    ghost use Rattle.pr_log.specs.Sets.{Gathered};

    ghost Value = { Gathered };

    ghost view = { λ c. record { names = c.names.keys; sets = c.sets.items } };
}

impl Collector {
    // No name, which takes no memory.
    pub fn new(alloc: Global) -> Collector
        ensures { (o : List ℕ) → is_gathered result o ≡ false }
    {
        Collector {
            alloc,
            names: BTreeSet::new(alloc),
            sets: Vec::new(alloc),
        }
    }

    pub fn alloc(&self) -> Global {
        self.alloc
    }

    // Adds the names of a set, if it has any.
    pub fn add(&mut self, set: NameSet) -> Result<(), NoMemory>
        ensures { OnOk result ((o : List ℕ) → IsName o → is_gathered self.new o ≡ (is_gathered self.old o || has set o)) }
    {
        if set.is_empty() {
            return Ok(());
        }
        add_set(self.alloc, &mut self.sets, set)
    }

    // Adds the names of a set that is kept elsewhere.
    pub fn add_copy(&mut self, set: &NameSet) -> Result<(), NoMemory>
        ensures { OnOk result ((o : List ℕ) → IsName o → is_gathered self.new o ≡ (is_gathered self.old o || has set.now o)) }
    {
        let set = set.copy(self.alloc)?;
        self.add(set)
    }

    // Adds one name, in time logarithmic in the names that were added so.
    pub fn add_name(&mut self, name: &Name) -> Result<(), NoMemory>
        ensures { OnOk result ((o : List ℕ) → IsName o → is_gathered self.new o ≡ (is_gathered self.old o || bytes_eq name.now o)) }
    {
        self.names.insert(*name)?;
        Ok(())
    }

    // Adds the name, if it is none of these.
    pub fn add_outside(&mut self, sub: &NameSet, name: &Name) -> Result<(), NoMemory>
        ensures { OnOk result ((o : List ℕ) → IsName o → is_gathered self.new o ≡ (is_gathered self.old o || (bytes_eq name.now o && not (has sub.now name.now)))) }
    {
        if sub.has(name) {
            return Ok(());
        }
        self.add_name(name)
    }

    // The names of all sets and the names alone. One set without names is moved, and not copied.
    pub fn union(self) -> Result<NameSet, NoMemory>
        ensures set { IfOk result IsSet }
        ensures names { IfOk result (λ set. (o : List ℕ) → IsName o → has set o ≡ is_gathered self o) }
    {
        let mut sets = self.sets;
        let mut union = first_of(self.alloc, &self.names, &mut sets)?;
        while let Some(set) = sets.pop() {
            union = union.union(self.alloc, &set)?;
        }
        let _ = union.parts();
        Ok(union)
    }
}

// The set of these names, or without names the last of the sets, which is taken out.
fn first_of(
    alloc: Global,
    names: &BTreeSet<Name>,
    sets: &mut Vec<NameSet>,
) -> Result<NameSet, NoMemory>
    ensures { IfOk result (λ set. (o : List ℕ) → IsName o → (is_in_any sets.new.items o || has set o) ≡ (is_any names.now.keys o || is_in_any sets.old.items o)) }
{
    if !names.is_empty() {
        return set_of(alloc, names);
    }
    match sets.pop() {
        Some(set) => Ok(set),
        None => Ok(NameSet::empty(alloc)),
    }
}

// Adds the names of a set to those of the sets.
fn add_set(alloc: Global, sets: &mut Vec<NameSet>, set: NameSet) -> Result<(), NoMemory>
    ensures { OnOk result ((o : List ℕ) → IsName o → is_in_any sets.new.items o ≡ (is_in_any sets.old.items o || has set o)) }
{
    let mut set = set;
    while let Some(last) = pop_small(sets, set.count()) {
        set = last.union(alloc, &set)?;
    }
    sets.push(set)?;
    Ok(())
}

// The set of these names, of which each comes after those before it, so that mostly it takes one allocation.
fn set_of(alloc: Global, names: &BTreeSet<Name>) -> Result<NameSet, NoMemory>
    ensures { IfOk result (λ set. (o : List ℕ) → IsName o → has set o ≡ is_any names.now.keys o) }
{
    let mut set = NameSet::with_room(alloc, names.len())?;
    for name in names.iter() {
        put(alloc, &mut set, name)?;
    }
    Ok(set)
}

// Adds a name to a set, in constant time where it comes after the set's intervals and touches none.
fn put(alloc: Global, set: &mut NameSet, name: &Name) -> Result<(), NoMemory>
    ensures { OnOk result ((o : List ℕ) → IsName o → has set.new o ≡ (has set.old o || bytes_eq name.now o)) }
{
    let Some(part) = interval_of(name) else {
        return Ok(());
    };
    if set.can_push(&part) {
        return set.push(part);
    }
    let one = NameSet::of(alloc, part)?;
    *set = set.union(alloc, &one)?;
    Ok(())
}

// Adds the name to the set, if it is none of these; in constant time where it comes after the set's intervals and touches
// none.
pub fn put_outside(
    alloc: Global,
    set: &mut NameSet,
    sub: &NameSet,
    name: &Name,
) -> Result<(), NoMemory>
    ensures { OnOk result ((o : List ℕ) → IsName o → has set.new o ≡ (has set.old o || (bytes_eq name.now o && not (has sub.now name.now)))) }
{
    if sub.has(name) {
        return Ok(());
    }
    put(alloc, set, name)
}

// The interval of the name alone.
fn interval_of(name: &Name) -> Option<Interval>
    ensures some { IfSome result (λ part. (o : List ℕ) → IsName o → holds part o ≡ bytes_eq name.now o) }
    ensures none { result ≡ None → (o : List ℕ) → IsName o → bytes_eq name.now o ≡ false }
{
    let _ = name.bytes();
    Interval::new(*name, name.after())
}

// The set of every name.
pub fn every_name(alloc: Global) -> Result<NameSet, NoMemory>
    ensures { IfOk result (λ set. (o : List ℕ) → IsName o → has set o ≡ true) }
{
    NameSet::empty(alloc).complement(alloc)
}

// Takes out the last set, if it has at most twice as many intervals.
fn pop_small(sets: &mut Vec<NameSet>, count: usize) -> Option<NameSet>
    ensures { MatchOption result (sets.new.items ≡ sets.old.items) (λ last. sets.old.items ≡ sets.new.items ++ last ∷ []) }
{
    let last = sets.last()?;
    if last.count() / 2 > count {
        return None;
    }
    sets.pop()
}
