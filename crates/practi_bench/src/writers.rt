// Nodes that write.
ghost use Rattle.pr_inval.specs.Messages.{IsMessage};
ghost use Rattle.std.specs.Prelude.{◌≤◌, IfOk};

use crate::failed::Failed;
use crate::forging::{body, imprecise, precise};
use crate::naming::name;
use pr_inval::{Msg, WriteRec};
use pr_stamps::Stamp;
use pr_vectors::Vector;
use std::alloc::Global;

/// A write, with what was written before it, and up to it.
#[derive(Drop)]
pub struct Told {
    pub from: Vector,
    pub to: Vector,
    pub write: WriteRec,
}

/// So many nodes that write in turn to so many names in turn, and know of each other's writes.
#[derive(Drop)]
pub struct Writers {
    count: u32,
    names: u32,
    made: u32,
    at: Vector,
    ghost some: { 1 ≤ count },
    ghost few: { count ≤ 31 },
    ghost some_names: { 1 ≤ names },
}

impl Writers {
    pub fn new(count: u32, names: u32) -> Writers
        requires some { 1 ≤ count }
        requires few { count ≤ 31 }
        requires some_names { 1 ≤ names }
    {
        Writers {
            count,
            names,
            made: 0,
            at: Vector::zero(),
        }
    }

    /// The precise invalidation of the next write.
    pub fn precise(&mut self, alloc: Global) -> Result<Msg, Failed>
        ensures { IfOk result IsMessage }
    {
        let told = self.write()?;
        precise(alloc, &told)
    }

    /// An imprecise invalidation in place of it.
    pub fn imprecise(&mut self, alloc: Global) -> Result<Msg, Failed>
        ensures { IfOk result IsMessage }
    {
        let told = self.write()?;
        imprecise(alloc, &told)
    }

    /// The body of the last write.
    pub fn body(&self, alloc: Global) -> Result<Msg, Failed>
        ensures { IfOk result IsMessage }
    {
        let last = self.made.saturating_sub(1);
        let name = name(b'n', last % self.names)?;
        let stamp = self.stamp(last).ok_or(Failed)?;
        body(alloc, &name, &stamp)
    }

    fn write(&mut self) -> Result<Told, Failed> {
        let write = WriteRec {
            name: name(b'n', self.made % self.names)?,
            stamp: self.stamp(self.made).ok_or(Failed)?,
            prev: self.prev(),
            gone: false,
        };
        let from = self.at;
        self.at.raise(&write.stamp);
        self.made = self.made.saturating_add(1);
        Ok(Told {
            from,
            to: self.at,
            write,
        })
    }

    // The stamp of the write of this number.
    fn stamp(&self, number: u32) -> Option<Stamp> {
        Stamp::new(number as u64 + 1, 1 + number % self.count)
    }

    // The stamp of the last write to the same name.
    fn prev(&self) -> Option<Stamp> {
        if self.made < self.names {
            return None;
        }
        self.stamp(self.made - self.names)
    }
}
