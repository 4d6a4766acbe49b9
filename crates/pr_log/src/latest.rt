// The clocks of the latest writes of one node.
ghost use Rattle.pr_log.specs.Latest.{IsAbove, IsRaised};
ghost use Rattle.pr_log.specs.Many.{IsSetWithin};
ghost use Rattle.pr_log.specs.Ranges.{range_end};
ghost use Rattle.pr_log.specs.Sets.{is_gathered};
ghost use Rattle.pr_names.specs.Name.{IsName};
ghost use Rattle.pr_names.specs.Span.{IsSpan, holds};
ghost use Rattle.pr_sets.specs.Spans.{has};
ghost use Rattle.std.specs.Prelude.{◌≡◌, ◌+◌, ◌⊎◌, ◌↔◌, ℕ, List, [], IsTrue, IfOk, OnErr, OnOk, false};

use crate::collector::{Collector, put_outside};
use pr_names::{Interval, Name};
use pr_sets::NameSet;
use pr_stamps::NoMemory;
use std::alloc::Global;
use std::collections::BTreeMap;
use std::marker::Model;
use std::ops::Bound;

// By name the clock of the latest write to it.
#[derive(Drop)]
pub struct Latest {
    clocks: BTreeMap<Name, u64>,
}

impl Model for Latest {
    ghost use Rattle.std.specs.Prelude.{List, ℕ};

    ghost Value = { List (List ℕ × ℕ) };

    ghost view = { λ l. l.clocks.entries };
}

impl Latest {
    pub fn new(alloc: Global) -> Latest
        ensures { result ≡ [] }
    {
        Latest {
            clocks: BTreeMap::new(alloc),
        }
    }

    // Knows of a write to the name at this clock, in time logarithmic in the names.
    pub fn put(&mut self, name: &Name, clock: u64) -> Result<(), NoMemory>
        ensures ok { OnOk result (IsRaised self.old self.new name.now clock) }
        ensures err { OnErr result (self.new ≡ self.old) }
    {
        let last = self.clocks.entry(*name)?.or_insert(clock);
        *last = (*last).max(clock);
        Ok(())
    }

    // Whether one of the names may have a write above the clock. Each interval and each name that is looked at is taken
    // from the looks that are left, and where none is left the answer is yes. An interval takes time logarithmic in the
    // names that have writes.
    pub fn may_have_above(&self, clock: u64, names: &NameSet, left: &mut usize) -> bool
        ensures { result ≡ false → (o : List ℕ) → IsAbove self.now clock o → has names.now o ≡ false }
    {
        for part in names.parts() {
            if self.may_have_in(part, clock, left) {
                return true;
            }
        }
        false
    }

    // The same of one interval.
    fn may_have_in(&self, part: &Interval, clock: u64, left: &mut usize) -> bool
        ensures { result ≡ false → (o : List ℕ) → IsAbove self.now clock o → holds part.now o ≡ false }
    {
        if !take_one(left) {
            return true;
        }
        for (_, last) in self
            .clocks
            .range((Bound::Included(part.lo()), end_of(part)))
        {
            if *last > clock || !take_one(left) {
                return true;
            }
        }
        false
    }

    // Adds the names with a write above the clock that are none of these, in time linear in the names that have writes.
    pub fn gather(&self, clock: u64, sub: &NameSet, names: &mut Collector) -> Result<(), NoMemory>
        ensures { OnOk result ((o : List ℕ) → IsName o → IsTrue (is_gathered names.new o) ↔ (IsTrue (is_gathered names.old o) ⊎ ((has sub.now o ≡ false) × IsAbove self.now clock o))) }
    {
        let above = self.above(names.alloc(), clock, sub)?;
        names.add(above)
    }

    // The names with a write above the clock that are none of these. They come in order, so that each is put behind the
    // last.
    fn above(&self, alloc: Global, clock: u64, sub: &NameSet) -> Result<NameSet, NoMemory>
        ensures { IfOk result (λ set. (o : List ℕ) → IsName o → IsTrue (has set o) ↔ ((has sub.now o ≡ false) × IsAbove self.now clock o)) }
    {
        let mut above = NameSet::empty(alloc);
        for (name, last) in self.clocks.iter() {
            if *last > clock {
                put_outside(alloc, &mut above, sub, name)?;
            }
        }
        Ok(above)
    }

    // The names with a write above the clock that are none of these; or where more than so many intervals hold them, the
    // first of them, with one interval more. It takes time linear in the names that come up to the last of these.
    pub fn first_above(
        &self,
        alloc: Global,
        clock: u64,
        sub: &NameSet,
        most: usize,
    ) -> Result<NameSet, NoMemory>
        ensures { IfOk result (λ set. IsSetWithin most set (λ o. (has sub.now o ≡ false) × IsAbove self.now clock o)) }
    {
        let mut above = NameSet::empty(alloc);
        for (name, last) in self.clocks.iter() {
            if above.parts().len() > most {
                return Ok(above);
            }
            if clock < *last {
                put_outside(alloc, &mut above, sub, name)?;
            }
        }
        let _ = above.parts();
        Ok(above)
    }

    // How many names there are.
    pub fn names(&self) -> usize {
        self.clocks.len()
    }
}

// Takes one of what is left; whether there was one.
fn take_one(left: &mut usize) -> bool
    ensures one { IsTrue result → left.old ≡ left.new + 1 }
    ensures none { result ≡ false → (left.old ≡ 0) × (left.new ≡ 0) }
{
    if *left == 0 {
        return false;
    }
    *left -= 1;
    true
}

// The end of an interval, as that of a range of a map.
fn end_of(part: &Interval) -> Bound<Name>
    ensures value { result ≡ range_end part.now.hi }
    ensures span { IsSpan part.now }
{
    match part.hi() {
        pr_names::Bound::At(name) => Bound::Excluded(name),
        pr_names::Bound::End => Bound::Unbounded,
    }
}
