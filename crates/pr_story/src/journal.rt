// What a node has done.
ghost use Rattle.std.specs.Prelude.{◌≡◌, ◌<◌, ◌≤◌, ◌+◌, [], ◌∷◌, ◌++◌, ◌-◌, List, MatchOption, OnOk, OnErr, get_or, length, reverse};
ghost use Rattle.pr_story.specs.declared.entry.Entry.{Entry};

use crate::Entry;
use crate::paged::Paged;
use pr_stamps::NoMemory;
use std::alloc::Global;
use std::marker::Model;

/// The entries of one node, the oldest first. Contracts see them as a list with its room, the number of entries that
/// can be added for certain. A node makes room before it makes an event, so that nothing can fail after it.
#[derive(Drop)]
pub struct Journal {
    list: Paged<Entry>,
}

impl Model for Journal {
    ghost use Rattle.pr_stamps.specs.Kept.{Kept};
    ghost use Rattle.pr_story.specs.declared.entry.Entry.{Entry};

    ghost Value = { Kept Entry };

    ghost view = { λ j. j.list };
}

impl Journal {
    /// The journal of a node that has done nothing; it takes no memory.
    pub fn new(alloc: Global) -> Journal
        ensures { result.items ≡ [] }
    {
        Journal {
            list: Paged::new(alloc),
        }
    }

    /// Makes room for one entry, in constant time but for a page of 256 entries that it takes. A refusal changes nothing.
    pub fn reserve(&mut self) -> Result<(), NoMemory>
        ensures ok { OnOk result (0 < self.new.room) }
        ensures err { OnErr result (self.new ≡ self.old) }
        ensures items { self.new.items ≡ self.old.items }
    {
        self.list.reserve()
    }

    /// Adds an entry at a place that was kept, in constant time and without taking memory.
    pub fn push(&mut self, entry: Entry)
        requires { 0 < self.old.room }
        ensures items { self.new.items ≡ self.old.items ++ entry ∷ [] }
        ensures room { self.old.room ≤ self.new.room + 1 }
    {
        self.list.push(entry);
    }

    pub fn len(&self) -> usize
        ensures { result ≡ length self.now.items }
    {
        self.list.len()
    }

    /// The entry at this place, the oldest being at 0, in constant time.
    pub fn entry(&self, place: usize) -> &Entry
        requires { place < length self.now.items }
        ensures { (e : Entry) → result.now ≡ get_or self.now.items place e }
    {
        self.list.get(place)
    }

    /// The newest entry, in constant time.
    pub fn last(&self) -> Option<&Entry>
        ensures { MatchOption result (self.now.items ≡ []) (λ e. (older : List Entry) × (reverse self.now.items ≡ e.now ∷ older)) }
    {
        let len = self.len();
        if len == 0 {
            return None;
        }
        Some(self.entry(len - 1))
    }
}
