// The known writes of one node.
ghost use Rattle.pr_log.specs.Known.{IsAddedAt, IsFirstIn, IsForgottenUpTo, IsUpTo, at_clock, count_above};
ghost use Rattle.pr_log.specs.Latest.{AreLatest, IsRaisedIn, IsWrittenAbove};
ghost use Rattle.pr_sets.specs.Spans.{has};
ghost use Rattle.std.specs.Prelude.{◌≡◌, ◌≤◌, ◌<◌, ◌+◌, ℕ, List, false, [], IfNone, IfOk, IfSome, IsSome, IsTrue, OnErr, OnOk, None, is_some, option_copied};
ghost use Rattle.pr_stamps.specs.Point.{IsStamp};

use crate::by_clock::ByClock;
use crate::latest::Latest;
use pr_inval::WriteRec;
use pr_names::Name;
use pr_sets::NameSet;
use pr_stamps::NoMemory;
use std::alloc::Global;
use std::marker::Model;

// Writes by their clocks, and a clock that none of them is past.
#[derive(Drop)]
pub struct Writes {
    by_clock: ByClock,
    // By name the clock of the latest one, where they are listed so, as streams want that leave names out.
    latest: Option<Latest>,
    last: u64,
}

impl Model for Writes {
    ghost use Rattle.std.specs.Prelude.{IfSome, List, ℕ};
    ghost use Rattle.pr_inval.specs.declared.write_rec.WriteRec.{WriteRec};
    ghost use Rattle.pr_log.specs.Known.{IsUpTo};
    ghost use Rattle.pr_log.specs.Latest.{AreLatest};

    ghost Value = { List (ℕ × WriteRec) };

    ghost view = { λ w. w.by_clock };

    ghost invariant = { λ w. IsUpTo w.last w.by_clock × IfSome w.latest (AreLatest w.by_clock) };
}

impl Writes {
    pub fn new(alloc: Global) -> Writes
        ensures { result ≡ [] }
    {
        Writes {
            by_clock: ByClock::new(alloc),
            latest: None,
            last: 0,
        }
    }

    // Keeps the write, if none has its clock. Past the last clock it takes amortised constant time, and before it time
    // logarithmic in the writes; where names are listed, logarithmic in these too.
    pub fn add(&mut self, write: &WriteRec) -> Result<(), NoMemory>
        ensures ok { OnOk result (IsAddedAt self.old self.new write.now) }
        ensures few { OnOk result ((c : ℕ) → count_above self.new c ≤ count_above self.old c + 1) }
        ensures err { OnErr result (self.new ≡ self.old) }
        ensures range { IsStamp write.now.stamp }
    {
        let clock = write.stamp.clock();
        if self.has(clock) {
            return Ok(());
        }
        self.by_clock.insert(clock, write)?;
        match put_latest(&mut self.latest, &write.name, clock) {
            Ok(()) => {
                self.last = self.last.max(clock);
                Ok(())
            }
            Err(error) => {
                self.by_clock.remove(clock);
                Err(error)
            }
        }
    }

    // Whether a write has this clock.
    fn has(&self, clock: u64) -> bool
        ensures { result ≡ is_some (at_clock self.now clock) }
    {
        self.last >= clock && self.by_clock.has(clock)
    }

    // The first write above the clock, and the place at which it was found; it is looked for at this one first. It takes
    // logarithmic time, and past the last clock, or where it is found there, constant time.
    #[inline]
    pub fn first_above(&self, clock: u64, place: &mut usize) -> Option<&WriteRec>
        ensures { IsFirstIn self.now clock (option_copied result) }
    {
        if self.last <= clock {
            return None;
        }
        match self.by_clock.first_above(clock, place) {
            Some((_, write)) => Some(write),
            None => None,
        }
    }

    // Lists the names, if they are not listed, in time linear in the writes, for each logarithmic in the names.
    pub fn list_names(&mut self, alloc: Global) -> Result<(), NoMemory>
        requires { at_clock self.old 0 ≡ None }
        ensures { self.new ≡ self.old }
    {
        if self.latest.is_none() {
            let latest = latest_of(alloc, &self.by_clock)?;
            self.latest = Some(latest);
        }
        Ok(())
    }

    // Whether one of the names may have been written above the clock, by so many looks at intervals and names as are
    // left; past the last clock in constant time, and by none. Where names are not listed, the answer there is yes.
    pub fn may_have_above(&self, clock: u64, names: &NameSet, left: &mut usize) -> bool
        ensures { result ≡ false → (o : List ℕ) → IsWrittenAbove self.now clock o → has names.now o ≡ false }
    {
        if self.last <= clock {
            return false;
        }
        match &self.latest {
            Some(latest) => latest.may_have_above(clock, names, left),
            None => true,
        }
    }

    // By name the latest writes, where they are listed, and more writes are above the clock than there are names; of the
    // late writes all count.
    pub fn latest_above(&self, clock: u64) -> Option<&Latest>
        ensures { IfSome (option_copied result) (AreLatest self.now) }
    {
        match &self.latest {
            Some(latest) if self.by_clock.most_above(clock) > latest.names() => Some(latest),
            _ => None,
        }
    }

    // Whether no write is known to be past the clock.
    pub fn is_up_to(&self, clock: u64) -> bool
        ensures { IsTrue result → IsUpTo clock self.now }
    {
        self.last <= clock
    }

    // Drops the writes up to the clock, and lists no names, in time linear in the writes.
    pub fn forget(&mut self, clock: u64)
        ensures { IsForgottenUpTo clock self.old self.new }
    {
        self.latest = None;
        self.by_clock.forget(clock);
    }
}

// Knows of a write to the name, where names are listed.
fn put_latest(latest: &mut Option<Latest>, name: &Name, clock: u64) -> Result<(), NoMemory>
    ensures ok { OnOk result (IsRaisedIn latest.old latest.new name.now clock) }
    ensures err { OnErr result (latest.new ≡ latest.old) }
{
    match latest {
        Some(latest) => latest.put(name, clock),
        None => Ok(()),
    }
}

// By name the latest of these writes.
fn latest_of(alloc: Global, writes: &ByClock) -> Result<Latest, NoMemory>
    requires { at_clock writes.now 0 ≡ None }
    ensures { IfOk result (AreLatest writes.now) }
{
    let mut latest = Latest::new(alloc);
    let mut clock = 0;
    let mut place = 0;
    while let Some((next, write)) = writes.first_above(clock, &mut place) {
        latest.put(&write.name, next)?;
        clock = next;
    }
    Ok(latest)
}
