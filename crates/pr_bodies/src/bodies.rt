// The body store.
ghost use Rattle.pr_bodies.specs.Bodies.{IsDroppedAll, IsPut, IsRenewed, IsSettled, held};
ghost use Rattle.std.specs.Prelude.{◌≡◌, [], true, false, None, Some, IfOk, IsErr, MatchOption, OnErr, OnOk};

use crate::row::Row;
use pr_names::Name;
use pr_stamps::{Bytes, NoMemory, Seq, Stamp};
use std::alloc::Global;
use std::collections::BTreeMap;
use std::marker::Model;

/// The bodies that a node holds, by name and stamp. After want of memory it is spent: each later `put` is refused, and
/// of what it holds nothing is said. Of a name mostly one body is held, so a call's time linear in the bodies of the
/// name is mostly constant.
#[derive(Drop)]
pub struct Bodies {
    alloc: Global,
    rows: BTreeMap<Name, Row>,
    spent: bool,
}

impl Model for Bodies {
    ghost use Rattle.pr_bodies.specs.Bodies.{Held};

    ghost Value = { Held };

    ghost view = { λ b. record { rows = b.rows.entries; spent = b.spent } };
}

impl Bodies {
    /// An empty store, which takes no memory.
    pub fn new(alloc: Global) -> Bodies
        ensures { result ≡ record { rows = []; spent = false } }
    {
        Bodies {
            alloc,
            rows: BTreeMap::new(alloc),
            spent: false,
        }
    }

    /// Holds a body, in place of one with its name and stamp. It takes time logarithmic in the names, and linear in the
    /// bodies of the name and in the bytes.
    pub fn put(&mut self, name: &Name, stamp: &Stamp, bytes: &[u8]) -> Result<(), NoMemory>
        ensures ok { OnOk result (IsPut self.old self.new name.now stamp.now bytes.now) }
        ensures works { OnOk result (self.new.spent ≡ false) }
        ensures err { OnErr result (self.new.spent ≡ true) }
        ensures spent { self.old.spent ≡ true → IsErr result }
    {
        let bytes = self.begin(bytes)?;
        let row = self.rows.entry(*name)?.or_insert(Row::new(self.alloc));
        row.put(stamp, bytes)?;
        self.spent = false;
        Ok(())
    }

    /// Holds a body as `put` does, and drops the bodies of the name with smaller stamps as `settle` does, in the time of
    /// `put` alone: what a newer write of the name calls for.
    pub fn renew(&mut self, name: &Name, stamp: &Stamp, bytes: &[u8]) -> Result<(), NoMemory>
        ensures ok { OnOk result (IsRenewed self.old self.new name.now stamp.now bytes.now) }
        ensures works { OnOk result (self.new.spent ≡ false) }
        ensures err { OnErr result (self.new.spent ≡ true) }
        ensures spent { self.old.spent ≡ true → IsErr result }
    {
        let bytes = self.begin(bytes)?;
        match self.rows.get_mut(name) {
            Some(row) => row.renew(stamp, bytes)?,
            None => {
                let mut row = Row::new(self.alloc);
                row.renew(stamp, bytes)?;
                self.rows.insert(*name, row)?;
            }
        }
        self.spent = false;
        Ok(())
    }

    // A copy of the bytes. The store is spent until the call that asked for it is done.
    fn begin(&mut self, bytes: &[u8]) -> Result<Bytes, NoMemory>
        ensures copy { IfOk result (λ b. b ≡ bytes.now) }
        ensures rows { self.new.rows ≡ self.old.rows }
        ensures spent { self.new.spent ≡ true }
        ensures refused { self.old.spent ≡ true → IsErr result }
    {
        if self.spent {
            return Err(NoMemory);
        }
        self.spent = true;
        Seq::copied(self.alloc, bytes)
    }

    /// The body of this name and stamp, in time logarithmic in the names and linear in the bodies of the name; None
    /// exactly where it is not held.
    pub fn get(&self, name: &Name, stamp: &Stamp) -> Option<&[u8]>
        ensures { MatchOption result (held self.now name.now stamp.now ≡ None) (λ b. held self.now name.now stamp.now ≡ Some b.now) }
    {
        match self.rows.get(name) {
            Some(row) => row.get(stamp),
            None => None,
        }
    }

    /// Drops the bodies of the name with smaller stamps, in time logarithmic in the names and linear in the bodies of
    /// the name. It takes no memory.
    pub fn settle(&mut self, name: &Name, stamp: &Stamp)
        ensures settled { IsSettled self.old self.new name.now stamp.now }
        ensures spent { self.new.spent ≡ self.old.spent }
    {
        if let Some(row) = self.rows.get_mut(name) {
            row.settle(stamp);
        }
    }

    /// Drops the bodies of the name, in time logarithmic in the names and linear in the bodies of the name. It takes no
    /// memory.
    pub fn drop_all(&mut self, name: &Name)
        ensures dropped { IsDroppedAll self.old self.new name.now }
        ensures spent { self.new.spent ≡ self.old.spent }
    {
        self.rows.remove(name);
    }
}
