// How far a stream's source has looked for what to send.
ghost use Rattle.pr_log.specs.Waiting.{IsNextOf};
ghost use Rattle.pr_marks.specs.Table.{is_after};
ghost use Rattle.pr_names.specs.Order.{name_lt};
ghost use Rattle.pr_node.specs.Scanning.{HasAwaited, Scanned, fresh};
ghost use Rattle.std.specs.Option.{option_copied};
ghost use Rattle.std.specs.Prelude.{◌≡◌, [], ◌∷◌, All, MatchOption, OnErr, OnOk, Some, drop, not, false, slice_get};

use pr_inval::WriteRec;
use pr_log::{Log, Near};
use pr_names::Name;
use pr_sets::NameSet;
use pr_stamps::NoMemory;
use pr_vectors::Vector;
use std::alloc::Global;
use std::collections::BTreeSet;
use std::marker::Model;

/// How far a stream's source has looked for bodies to send, so that a turn looks only at what changed since the last
/// one. It is kept beside the stream's session, for the node that is the stream's source, and begins anew where the
/// session does. It takes memory for the names that wait to be looked at again. It keeps too where the writes past the
/// stream's position were found last, of which contracts see nothing.
#[derive(Drop)]
pub struct Scan {
    looked: usize,
    last: Option<Name>,
    waiting: BTreeSet<Name>,
    near: Near,
}

impl Model for Scan {
    ghost use Rattle.pr_node.specs.Scanning.{Scanned};

    ghost Value = { Scanned };

    ghost view = { λ s. record { looked = s.looked; last = s.last; waiting = s.waiting.keys } };
}

impl Scan {
    /// It has looked at nothing, which is right for any session at any node. It takes no memory.
    pub fn new(alloc: Global) -> Scan
        ensures { result ≡ fresh }
    {
        Scan {
            looked: 0,
            last: None,
            waiting: BTreeSet::new(alloc),
            near: Near::new(),
        }
    }

    /// It begins anew.
    pub fn begin(&mut self)
        ensures { self.new ≡ fresh }
    {
        self.looked = 0;
        self.last = None;
        self.waiting.clear();
    }

    // The write that a stream of these names sends next from this position.
    pub(crate) fn next_write<'a>(
        &mut self,
        log: &'a Log,
        position: &Vector,
        names: &NameSet,
    ) -> Option<&'a WriteRec>
        ensures next { IsNextOf log.now.known position.now names.now (option_copied result) }
        ensures same { self.new ≡ self.old }
    {
        log.next_write(position, names, &mut self.near)
    }

    pub(crate) fn looked(&self) -> usize
        ensures { result ≡ self.now.looked }
    {
        self.looked
    }

    pub(crate) fn last(&self) -> Option<Name>
        ensures { result ≡ self.now.last }
    {
        self.last
    }

    // It has looked at so many entries.
    pub(crate) fn has_looked(&mut self, looked: usize)
        ensures { self.new ≡ record { looked = looked; last = self.old.last; waiting = self.old.waiting } }
    {
        self.looked = looked;
    }

    // It has passed all names up to this one.
    pub(crate) fn pass(&mut self, name: &Name)
        ensures { self.new ≡ record { looked = self.old.looked; last = Some name.now; waiting = self.old.waiting } }
    {
        self.last = Some(*name);
    }

    // The least name that waits.
    pub(crate) fn first(&self) -> Option<Name>
        ensures { MatchOption result (self.now.waiting ≡ []) (λ name. (slice_get self.now.waiting 0 ≡ Some name) × All (λ o. name_lt o name ≡ false) self.now.waiting) }
    {
        match self.waiting.first() {
            Some(name) => Some(*name),
            None => None,
        }
    }

    // The least name waits no more.
    pub(crate) fn leave_first(&mut self)
        ensures { self.new ≡ record { looked = self.old.looked; last = self.old.last; waiting = drop 1 self.old.waiting } }
    {
        let _ = self.waiting.pop_first();
    }

    // Lets the name wait, where it is one of these and was passed.
    pub(crate) fn await_name(&mut self, name: &Name, names: &NameSet) -> Result<(), NoMemory>
        ensures ok { OnOk result (HasAwaited names.now (name.now ∷ []) self.old self.new) }
        ensures err { OnErr result (HasAwaited names.now [] self.old self.new) }
    {
        if self.has_passed(name) && names.has(name) {
            let _ = self.waiting.insert(*name)?;
        }
        Ok(())
    }

    fn has_passed(&self, name: &Name) -> bool
        ensures { result ≡ not (is_after self.now.last name.now) }
    {
        match &self.last {
            Some(last) => !last.is_below(name),
            None => false,
        }
    }
}
