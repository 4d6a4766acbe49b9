// The table of marks.
ghost use Rattle.pr_marks.specs.Pairs.{pairs_of};
ghost use Rattle.pr_marks.specs.Row.{Rises};
ghost use Rattle.pr_marks.specs.Table.{IsForgotten, IsMarked, IsRaised, is_after, marks_of, names_of, newest_of, row_of};
ghost use Rattle.pr_names.specs.Order.{NamesRise};
ghost use Rattle.pr_stamps.specs.declared.newest.Newest.{Newest};
ghost use Rattle.pr_vectors.specs.Vector.{IsVector, zero_vector};
ghost use Rattle.std.specs.Option.{option_map};
ghost use Rattle.std.specs.Prelude.{◌≡◌, [], true, false, MatchOption, None, Some, IfOk, IfSome, IsErr, OnErr, OnOk, find};
ghost use Rattle.std.specs.BTreeMap.{keys};

use crate::row::Row;
use crate::{Newest, marked};
use pr_names::Name;
use pr_stamps::{Mark, NoMemory, Seq, Stamp};
use pr_vectors::Vector;
use std::alloc::Global;
use std::collections::BTreeMap;
use std::marker::Model;
use std::ops::Bound;

/// By name the newest known stamp and the marks that the floor does not cover. After want of memory it is spent: each
/// later call that takes memory is refused, and of what it holds nothing is said.
#[derive(Drop)]
pub struct Marks {
    alloc: Global,
    rows: BTreeMap<Name, Row>,
    // The names that have marks.
    marked: Vec<Name>,
    floor: Vector,
    spent: bool,
}

impl Model for Marks {
    ghost use Rattle.pr_marks.specs.Listed.{AreListed};
    ghost use Rattle.pr_marks.specs.Table.{Table};

    ghost Value = { Table };

    ghost view = { λ m. record { rows = m.rows.entries; floor = m.floor; spent = m.spent } };

    ghost invariant = { λ m. AreListed m.marked.items m.rows.entries };
}

impl Marks {
    /// An empty table with the floor zero, which takes no memory.
    pub fn new(alloc: Global) -> Marks
        ensures { result ≡ record { rows = []; floor = zero_vector; spent = false } }
    {
        Marks {
            alloc,
            rows: BTreeMap::new(alloc),
            marked: Vec::new(alloc),
            floor: Vector::zero(),
            spent: false,
        }
    }

    /// Knows of a write: its stamp, and its mark where the floor does not cover it. It takes time logarithmic in the
    /// names and in the marks of the name after this one, and linear in these where it is put before them.
    pub fn add(&mut self, name: &Name, mark: &Mark, gone: bool) -> Result<(), NoMemory>
        ensures ok { OnOk result (IsMarked self.old self.new name.now mark.now gone) }
        ensures works { OnOk result (self.new.spent ≡ false) }
        ensures err { OnErr result (self.new.spent ≡ true) }
        ensures spent { self.old.spent ≡ true → IsErr result }
    {
        if self.spent {
            return Err(NoMemory);
        }
        self.spent = true;
        if !self.add_known(name, mark, gone)? {
            self.add_new(name, mark, gone)?;
        }
        self.spent = false;
        Ok(())
    }

    // Knows of a write of the name, if the name is known; tells whether it is.
    fn add_known(&mut self, name: &Name, mark: &Mark, gone: bool) -> Result<bool, NoMemory>
        ensures known { IfOk result (λ known. known ≡ true → IsMarked self.old self.new name.now mark.now gone) }
        ensures unknown { IfOk result (λ known. known ≡ false → (self.new ≡ self.old) × (row_of self.old name.now ≡ None)) }
        ensures spent { self.new.spent ≡ self.old.spent }
    {
        match self.rows.get_mut(name) {
            Some(row) => {
                row.raise(&newest_of(mark, gone));
                marked::note(row, &mut self.marked, &self.floor, name, mark)?;
                Ok(true)
            }
            None => Ok(false),
        }
    }

    // Knows of a write of a name that is not known.
    fn add_new(&mut self, name: &Name, mark: &Mark, gone: bool) -> Result<(), NoMemory>
        requires { row_of self.old name.now ≡ None }
        ensures ok { OnOk result (IsMarked self.old self.new name.now mark.now gone) }
        ensures spent { self.new.spent ≡ self.old.spent }
    {
        let mut row = Row::new(self.alloc, &newest_of(mark, gone));
        marked::note(&mut row, &mut self.marked, &self.floor, name, mark)?;
        self.rows.insert(*name, row)?;
        Ok(())
    }

    /// Knows of the next write of a name, as `add` does, where its mark says that the newest known stamp of the name was
    /// known before it. Answers that stamp, of the one look-up of the name.
    pub fn follow(
        &mut self,
        name: &Name,
        stamp: &Stamp,
        gone: bool,
    ) -> Result<Option<Stamp>, NoMemory>
        ensures prev { IfOk result (λ prev. prev ≡ option_map (λ (n : Newest). n.stamp) (newest_of self.old name.now)) }
        ensures ok { IfOk result (λ prev. IsMarked self.old self.new name.now (record { stamp = stamp.now; prev = prev }) gone) }
        ensures works { IfOk result (λ _. self.new.spent ≡ false) }
        ensures err { OnErr result (self.new.spent ≡ true) }
        ensures spent { self.old.spent ≡ true → IsErr result }
    {
        if self.spent {
            return Err(NoMemory);
        }
        self.spent = true;
        let prev = self.follow_known(name, stamp, gone)?;
        if prev.is_none() {
            self.add_new(name, &next_mark(stamp, None), gone)?;
        }
        self.spent = false;
        Ok(prev)
    }

    // Knows of the next write of the name, if the name is known, and answers the newest known stamp.
    fn follow_known(
        &mut self,
        name: &Name,
        stamp: &Stamp,
        gone: bool,
    ) -> Result<Option<Stamp>, NoMemory>
        ensures known { IfOk result (λ prev. (prev ≡ None → ⊥) → IsMarked self.old self.new name.now (record { stamp = stamp.now; prev = prev }) gone) }
        ensures prev { IfOk result (λ prev. prev ≡ option_map (λ (n : Newest). n.stamp) (newest_of self.old name.now)) }
        ensures unknown { IfOk result (λ prev. prev ≡ None → (self.new ≡ self.old) × (row_of self.old name.now ≡ None)) }
        ensures spent { self.new.spent ≡ self.old.spent }
    {
        match self.rows.get_mut(name) {
            Some(row) => {
                let mark = next_mark(stamp, Some(row.newest().stamp));
                row.raise(&newest_of(&mark, gone));
                marked::note(row, &mut self.marked, &self.floor, name, &mark)?;
                Ok(mark.prev)
            }
            None => Ok(None),
        }
    }

    /// Knows of a stamp of the name, in time logarithmic in the names.
    pub fn raise(&mut self, name: &Name, newest: &Newest) -> Result<(), NoMemory>
        ensures ok { OnOk result (IsRaised self.old self.new name.now newest.now) }
        ensures works { OnOk result (self.new.spent ≡ false) }
        ensures err { OnErr result (self.new.spent ≡ true) }
        ensures spent { self.old.spent ≡ true → IsErr result }
    {
        if self.spent {
            return Err(NoMemory);
        }
        self.spent = true;
        if !self.raise_known(name, newest) {
            self.raise_new(name, newest)?;
        }
        self.spent = false;
        Ok(())
    }

    // Knows of a stamp of the name, if the name is known; tells whether it is.
    fn raise_known(&mut self, name: &Name, newest: &Newest) -> bool
        ensures known { result ≡ true → IsRaised self.old self.new name.now newest.now }
        ensures unknown { result ≡ false → (self.new ≡ self.old) × (row_of self.old name.now ≡ None) }
        ensures spent { self.new.spent ≡ self.old.spent }
    {
        match self.rows.get_mut(name) {
            Some(row) => {
                row.raise(newest);
                true
            }
            None => false,
        }
    }

    // Knows of a stamp of a name that is not known.
    fn raise_new(&mut self, name: &Name, newest: &Newest) -> Result<(), NoMemory>
        requires { row_of self.old name.now ≡ None }
        ensures ok { OnOk result (IsRaised self.old self.new name.now newest.now) }
        ensures spent { self.new.spent ≡ self.old.spent }
    {
        self.rows.insert(*name, Row::new(self.alloc, newest))?;
        Ok(())
    }

    /// Raises the floor, and forgets the marks that it covers. It takes time logarithmic in the names and linear in the
    /// marks, for each name that has marks, and no memory.
    pub fn forget(&mut self, floor: &Vector)
        ensures forgotten { IsForgotten self.old self.new floor.now }
        ensures spent { self.new.spent ≡ self.old.spent }
    {
        marked::forget(&mut self.rows, &mut self.marked, floor);
        self.floor = self.floor.join(floor);
    }

    /// The join of the floors that were forgotten.
    pub fn floor(&self) -> Vector
        ensures value { result ≡ self.now.floor }
        ensures range { IsVector result }
    {
        let _ = self.floor.at(0);
        self.floor
    }

    /// The newest known stamp of the name, in time logarithmic in the names; None exactly where none is known.
    pub fn newest(&self, name: &Name) -> Option<Newest>
        ensures { result ≡ newest_of self.now name.now }
    {
        match self.rows.get(name) {
            Some(row) => Some(row.newest()),
            None => None,
        }
    }

    /// The newest known stamp of the name, and its marks in the order of their stamps, in time logarithmic in the names;
    /// None exactly where none is known.
    pub fn known(&self, name: &Name) -> Option<(Newest, &[Mark])>
        ensures value { MatchOption result (newest_of self.now name.now ≡ None) (λ known. (newest_of self.now name.now ≡ Some known.0) × (known.1.now ≡ marks_of self.now name.now)) }
        ensures rise { IfSome result (λ known. Rises known.1.now) }
    {
        match self.rows.get(name) {
            Some(row) => Some((row.newest(), row.marks())),
            None => None,
        }
    }

    /// The least name that has a newest known stamp and comes after `above`, in time logarithmic in the names; None
    /// exactly where there is none.
    pub fn next_known(&self, above: &Option<Name>) -> Option<Name>
        ensures value { result ≡ find (is_after above.now) (names_of self.now) }
        ensures order { NamesRise (names_of self.now) }
    {
        let _ = self.rows.len();
        match above {
            Some(name) => next_after(&self.rows, name),
            None => first(&self.rows),
        }
    }

    /// The conflicts of the name, by the earlier stamp and then the later one. It takes time logarithmic in the names,
    /// and logarithmic in the marks for each conflict and each mark that conflicted with one that is forgotten.
    pub fn pairs(&self, name: &Name) -> Result<Seq<(Stamp, Stamp)>, NoMemory>
        ensures { IfOk result (λ pairs. pairs ≡ pairs_of (marks_of self.now name.now)) }
    {
        match self.rows.get(name) {
            Some(row) => row.pairs(self.alloc),
            None => Ok(Seq::new(self.alloc)),
        }
    }

    // How many names are listed as having marks.
    #[cfg(test)]
    pub fn listed(&self) -> usize {
        self.marked.len()
    }
}

fn first(rows: &BTreeMap<Name, Row>) -> Option<Name>
    ensures { result ≡ find (is_after None) (keys rows.now) }
{
    match rows.first_key_value() {
        Some((name, _)) => Some(*name),
        None => None,
    }
}

fn next_after(rows: &BTreeMap<Name, Row>, name: &Name) -> Option<Name>
    ensures { result ≡ find (is_after (Some name.now)) (keys rows.now) }
{
    match rows
        .range((Bound::Excluded(*name), Bound::Unbounded))
        .next()
    {
        Some((next, _)) => Some(*next),
        None => None,
    }
}

// The mark of a write whose node knew this stamp as the newest.
fn next_mark(stamp: &Stamp, prev: Option<Stamp>) -> Mark
    ensures { result ≡ record { stamp = stamp.now; prev = prev } }
{
    Mark {
        stamp: *stamp,
        prev,
    }
}

fn newest_of(mark: &Mark, gone: bool) -> Newest
    ensures { result ≡ record { stamp = mark.now.stamp; gone = gone } }
{
    Newest {
        stamp: mark.stamp,
        gone,
    }
}
