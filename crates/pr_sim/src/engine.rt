// The engine.
ghost use Rattle.pr_node.specs.Stored.{Stored, means};
ghost use Rattle.pr_story.specs.Places.{places_of};
ghost use Rattle.pr_sim.specs.Running.{Tells};
ghost use Rattle.pr_story.specs.Counts.{Declared};
ghost use Rattle.pr_story.specs.declared.entry.Entry.{Entry};
ghost use Rattle.pr_story.specs.History.{NodeEntry, journal};
ghost use Rattle.std.specs.Prelude.{◌≡◌, ◌<◌, List, MatchOption, None, Some, ◌≤◌, length, reverse, slice_index_or, ℕ};

use pr_inval::Session;
use pr_node::{Node, Scan};
use pr_stamps::Roomy;
use pr_story::{Entry, Journal};
use pr_vectors::Vector;
use std::alloc::Global;

// The caller's number of each entry that one thread makes.
pub const CALLER: u32 = 0;

/// A stream's ends.
#[derive(Clone, Copy)]
pub struct Route {
    pub source: u32,
    pub destination: u32,
}

/// All nodes, streams and clients of a script, and the history: the node of each entry and its place in that node's
/// journal. After a fault it is stopped: what it did is still told, and no further command is run. A node, or a stream's
/// session, is absent only while a phase in threads has it, or once the run is over and its node was taken.
#[derive(Drop)]
pub struct Engine {
    pub(crate) alloc: Global,
    pub(crate) nodes: Vec<Option<Node>>,
    pub(crate) sessions: Vec<Option<Session>>,
    pub(crate) routes: Vec<Route>,
    pub(crate) sent: Vec<Roomy<usize>>,
    pub(crate) scans: Vec<Scan>,
    pub(crate) homes: Vec<u32>,
    pub(crate) seen: Vec<Vector>,
    pub(crate) history: Roomy<(u32, usize)>,
}

impl Engine {
    /// The node of each entry, and the entry's place in that node's journal, in the order in which they were made. It
    /// takes constant time.
    pub fn history(&self) -> &[(u32, usize)]
        ensures { (d : Declared) (h : List NodeEntry) → Tells d h self.now → result.now ≡ places_of h }
    {
        self.history.as_slice()
    }

    /// A node's journal, or None for a number that no node has, in constant time.
    pub fn journal(&self, node: u32) -> Option<&Journal>
        ensures { (d : Declared) (h : List NodeEntry) → Tells d h self.now → MatchOption result (d.counts.nodes ≤ node) (λ j. reverse j.now.items ≡ journal h node) }
    {
        match self.nodes.get(node as usize) {
            Some(slot) => journal_of(slot),
            None => None,
        }
    }

    /// The node of the entry at this place of the history, in constant time.
    pub fn node_of(&self, at: usize) -> u32
        requires { (d : Declared) × (h : List NodeEntry) × Tells d h self.now × (at < length h) }
        ensures { (d : Declared) (h : List NodeEntry) (e : NodeEntry) → Tells d h self.now → at < length h → result ≡ (slice_index_or (reverse h) at e).node }
    {
        let (node, _) = place_at(self.history.as_slice(), at);
        node
    }

    /// The entry at this place of the history, in constant time.
    pub fn entry(&self, at: usize) -> &Entry
        requires { (d : Declared) × (h : List NodeEntry) × Tells d h self.now × (at < length h) }
        ensures { (d : Declared) (h : List NodeEntry) (e : NodeEntry) → Tells d h self.now → at < length h → result.now ≡ (slice_index_or (reverse h) at e).entry }
    {
        let (node, place) = place_at(self.history.as_slice(), at);
        entry_at(node_at(&self.nodes, node), place)
    }
}

/// The node that stands there, in constant time.
pub fn node_at(nodes: &Vec<Option<Node>>, node: u32) -> &Node
    requires { (m : Stored) × (slice_index_or nodes.now.items node None ≡ Some m) }
    ensures { slice_index_or nodes.now.items node None ≡ Some result.now }
{
    match &nodes[node as usize] {
        Some(at) => at,
        None => unreachable!(),
    }
}

// The journal of the node that stands there.
pub fn journal_of(slot: &Option<Node>) -> Option<&Journal>
    ensures { MatchOption result (slot.now ≡ None) (λ j. (m : Stored) × (slot.now ≡ Some m) × (reverse j.now.items ≡ (means m).journal)) }
{
    match slot {
        Some(node) => Some(node.journal()),
        None => None,
    }
}

fn place_at(places: &[(u32, usize)], at: usize) -> (u32, usize)
    requires { at < length places.now }
    ensures { (d : ℕ × ℕ) → result ≡ slice_index_or places.now at d }
{
    places[at]
}

// The entry at this place of the node's journal.
pub fn entry_at(node: &Node, place: usize) -> &Entry
    requires { place < length (means node.now).journal }
    ensures { (e : Entry) → result.now ≡ slice_index_or (reverse (means node.now).journal) place e }
{
    node.journal().entry(place)
}
