// A node, beside what the plain program wants of it.

use crate::Node;
use crate::tests::building::{node, sets};
use pr_sets::NameSet;
use pr_stamps::Seq;
use pr_story::Entry;
use std::alloc::Global;

/// A node, its sets once more, and what it did, as the definitions give it.
#[derive(Drop)]
pub struct Site {
    pub id: u32,
    pub sets: Seq<NameSet>,
    pub node: Node,
    pub told: Vec<Entry>,
}

impl Site {
    /// A node with these two sets; an empty text stands for none.
    pub fn new(alloc: Global, id: u32, texts: (&[u8], &[u8])) -> Option<Site> {
        let node = node(alloc, id, texts.0, texts.1)?;
        let sets = sets(alloc, texts.0, texts.1)?;
        Some(Site {
            id,
            sets,
            node,
            told: Vec::new(alloc),
        })
    }

    pub fn entries(&self) -> &[Entry] {
        self.told.as_slice()
    }

    /// The time of its last entry, 0 before the first.
    pub fn time(&self) -> u64 {
        match self.entries().last() {
            Some(entry) => entry.time,
            None => 0,
        }
    }
}
