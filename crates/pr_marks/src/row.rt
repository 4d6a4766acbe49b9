// What is kept of a name.
ghost use Rattle.pr_marks.specs.Pairs.{pairs_of};
ghost use Rattle.pr_marks.specs.Row.{Rises, above_floor, with_mark};
ghost use Rattle.pr_stamps.specs.Marks.{later};
ghost use Rattle.std.specs.Prelude.{◌≡◌, ◌==◌, [], length, not, IfOk, OnErr, OnOk};

use crate::in_order::{place, put_at, stands_at};
use crate::{Newest, conflicts};
use pr_stamps::{Mark, NoMemory, Seq, Stamp};
use pr_vectors::Vector;
use std::alloc::Global;
use std::marker::Model;

// The newest known stamp, and the marks in the order of their stamps.
#[derive(Drop)]
pub struct Row {
    newest: Newest,
    marks: Vec<Mark>,
    // The marks that conflict with the one right before them, in the same order; others may be among them.
    conflicting: Vec<Mark>,
}

impl Model for Row {
    ghost use Rattle.pr_marks.specs.Conflicting.{ListsConflicts};
    ghost use Rattle.pr_marks.specs.Row.{Kept, Rises};

    ghost Value = { Kept };

    ghost view = { λ r. record { newest = r.newest; marks = r.marks.items } };

    ghost invariant = { λ r. Rises r.marks.items × ListsConflicts r.marks.items r.conflicting.items };
}

impl Row {
    pub fn new(alloc: Global, newest: &Newest) -> Row
        ensures { result ≡ record { newest = newest.now; marks = [] } }
    {
        Row {
            newest: *newest,
            marks: Vec::new(alloc),
            conflicting: Vec::new(alloc),
        }
    }

    pub fn newest(&self) -> Newest
        ensures { result ≡ self.now.newest }
    {
        self.newest
    }

    pub fn marks(&self) -> &[Mark]
        ensures value { result.now ≡ self.now.marks }
        ensures rise { Rises self.now.marks }
    {
        self.marks.as_slice()
    }

    pub fn has_marks(&self) -> bool
        ensures { result ≡ not (length self.now.marks == 0) }
    {
        !self.marks.is_empty()
    }

    // The later of the two is the newest; of equal stamps the first.
    pub fn raise(&mut self, newest: &Newest)
        ensures newest { self.new.newest ≡ later self.old.newest newest.now }
        ensures marks { self.new.marks ≡ self.old.marks }
    {
        if self.newest.stamp.is_before(&newest.stamp) {
            self.newest = *newest;
        }
    }

    // Keeps the mark in its place, if no mark has its stamp. The first one takes room for itself alone, since most
    // names have one mark.
    pub fn add(&mut self, mark: &Mark) -> Result<(), NoMemory>
        ensures newest { self.new.newest ≡ self.old.newest }
        ensures ok { OnOk result (self.new.marks ≡ with_mark self.old.marks mark.now) }
        ensures err { OnErr result (self.new.marks ≡ self.old.marks) }
    {
        let at = place(&self.marks, &mark.stamp);
        if stands_at(&self.marks, at, &mark.stamp) {
            return Ok(());
        }
        conflicts::list(&mut self.conflicting, &self.marks, at, mark)?;
        put_at(&mut self.marks, at, mark)?;
        Ok(())
    }

    // The conflicts among the marks.
    pub fn pairs(&self, alloc: Global) -> Result<Seq<(Stamp, Stamp)>, NoMemory>
        ensures { IfOk result (λ pairs. pairs ≡ pairs_of self.now.marks) }
    {
        conflicts::pairs(alloc, &self.marks, &self.conflicting)
    }

    // Drops the marks that the floor covers.
    pub fn forget(&mut self, floor: &Vector)
        ensures newest { self.new.newest ≡ self.old.newest }
        ensures marks { self.new.marks ≡ above_floor floor.now self.old.marks }
    {
        self.marks.retain(|mark| !floor.covers(&mark.stamp));
        self.conflicting.retain(|mark| !floor.covers(&mark.stamp));
    }
}
