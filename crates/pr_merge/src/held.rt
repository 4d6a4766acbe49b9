// What runs jobs lends its nodes and streams to them.
ghost use Rattle.pr_inval.specs.Standing.{Remembered};
ghost use Rattle.pr_merge.specs.Holding.{AddsPlaces, HasHistory, HeldState};
ghost use Rattle.pr_story.specs.declared.entry.Entry.{Entry};
ghost use Rattle.pr_story.specs.Clients.{client_node, client_vector};
ghost use Rattle.pr_story.specs.Counts.{Declared};
ghost use Rattle.pr_story.specs.History.{NodeEntry};
ghost use Rattle.std.specs.Prelude.{◌≡◌, ◌<◌, ◌≤◌, ◌++◌, ℕ, List, MatchOption, None, OnOk, OnErr, Some, get_or, length, reverse, slice_set};

use pr_inval::Session;
use pr_stamps::NoMemory;
use pr_story::{Entry, Journal, Journaled};
use pr_vectors::Vector;

/// All nodes, streams and clients of a run, and its history: the node of each entry and its place in that node's
/// journal. Nodes and sessions may be taken out and given back, and entries that the nodes made meanwhile are appended
/// to the history then. Numbers are those of the declarations. All calls but `reserve` and `append` take constant time.
pub trait Held {
    type Node: Journaled;

    ghost state: { Self → HeldState Self.Node };

    /// Whether what it keeps beside its state is that of this history of what is declared.
    ghost records: { Self → Declared → List NodeEntry → Type 0 };

    /// Whether there is room for so many more places.
    ghost has_room: { Self → ℕ → Type 0 };

    /// Takes the node that stands there; None where it was taken and not given back.
    fn take_node(&mut self, node: u32) -> Option<Self::Node>
        requires { node < length (state self.old).nodes }
        ensures was { result ≡ get_or (state self.old).nodes node None }
        ensures state { state self.new ≡ record { nodes = slice_set (state self.old).nodes node None; sessions = (state self.old).sessions; clients = (state self.old).clients; places = (state self.old).places } }
        ensures records { (d : Declared) (h : List NodeEntry) → records self.old d h → records self.new d h }
        ensures room { (n : ℕ) → has_room self.old n → has_room self.new n };

    /// Puts back a node that was taken.
    fn give_node(&mut self, node: u32, value: Self::Node)
        requires { (node < length (state self.old).nodes) × (get_or (state self.old).nodes node None ≡ None) }
        ensures state { state self.new ≡ record { nodes = slice_set (state self.old).nodes node (Some value); sessions = (state self.old).sessions; clients = (state self.old).clients; places = (state self.old).places } }
        ensures records { (d : Declared) (h : List NodeEntry) → records self.old d h → records self.new d h }
        ensures room { (n : ℕ) → has_room self.old n → has_room self.new n };

    /// Takes the session that stands there; None where it was taken and not given back.
    fn take_session(&mut self, stream: u32) -> Option<Session>
        requires { stream < length (state self.old).sessions }
        ensures was { result ≡ get_or (state self.old).sessions stream None }
        ensures state { state self.new ≡ record { nodes = (state self.old).nodes; sessions = slice_set (state self.old).sessions stream None; clients = (state self.old).clients; places = (state self.old).places } }
        ensures records { (d : Declared) (h : List NodeEntry) → records self.old d h → records self.new d h }
        ensures room { (n : ℕ) → has_room self.old n → has_room self.new n };

    /// Puts back a session that was taken.
    fn give_session(&mut self, stream: u32, value: Session)
        requires { (stream < length (state self.old).sessions) × (get_or (state self.old).sessions stream None ≡ None) }
        ensures state { state self.new ≡ record { nodes = (state self.old).nodes; sessions = slice_set (state self.old).sessions stream (Some value); clients = (state self.old).clients; places = (state self.old).places } }
        ensures records { (d : Declared) (h : List NodeEntry) → records self.old d h → records self.new d h }
        ensures room { (n : ℕ) → has_room self.old n → has_room self.new n };

    /// Lends the journal of the node that stands there; None where it was taken and not given back.
    fn journal(&self, node: u32) -> Option<&Journal>
        ensures { MatchOption result (get_or (state self.now).nodes node None ≡ None) (λ j. (m : Self.Node) × (get_or (state self.now).nodes node None ≡ Some m) × (reverse j.now.items ≡ Self.Node.journal m)) };

    /// A stream's source and destination.
    fn route(&self, stream: u32) -> (u32, u32)
        requires { (stream < length (state self.now).sessions) × ((d : Declared) × (h : List NodeEntry) × records self.now d h) }
        ensures { (d : Declared) (h : List NodeEntry) → records self.now d h → (result.0 ≡ (d.plan.stream stream).source) × (result.1 ≡ (d.plan.stream stream).destination) × (result.0 < length (state self.now).nodes) × (result.1 < length (state self.now).nodes) };

    /// The node where a client stands.
    fn home(&self, client: u32) -> u32
        requires { (client < (state self.now).clients) × ((d : Declared) × (h : List NodeEntry) × records self.now d h) }
        ensures { (d : Declared) (h : List NodeEntry) → records self.now d h → (result ≡ client_node d.plan h client) × (result < length (state self.now).nodes) };

    /// What a client has seen.
    fn client(&self, client: u32) -> Vector
        requires { (client < (state self.now).clients) × ((d : Declared) × (h : List NodeEntry) × records self.now d h) }
        ensures { (d : Declared) (h : List NodeEntry) → records self.now d h → result ≡ client_vector h client };

    /// Makes room for so many more places, or fewer. A refusal changes nothing else. It takes time linear in the streams,
    /// and in the places where they are moved.
    fn reserve(&mut self, more: usize) -> Result<(), NoMemory>
        ensures ok { OnOk result ((n : ℕ) → n ≤ more → has_room self.new n) }
        ensures state { state self.new ≡ state self.old }
        ensures records { (d : Declared) (h : List NodeEntry) → records self.old d h → records self.new d h };

    /// Adds entries that the nodes have made at the end of the history, by their places in the journals. There is room
    /// for them, and no node is out. It takes time linear in the places.
    fn append(&mut self, places: &[(u32, usize)])
        requires room { has_room self.old (length places.now) }
        requires adds { (d : Declared) × (h : List NodeEntry) × (new : List NodeEntry) × AddsPlaces Self.Node.journal d h new (state self.old) places.now × records self.old d h }
        ensures state { state self.new ≡ record { nodes = (state self.old).nodes; sessions = (state self.old).sessions; clients = (state self.old).clients; places = (state self.old).places ++ places.now } }
        ensures records { (d : Declared) (h new : List NodeEntry) → AddsPlaces Self.Node.journal d h new (state self.old) places.now → records self.old d h → records self.new d (new ++ h) };

    /// The node of each entry, and the entry's place in that node's journal, in the order in which they were made.
    fn history(&self) -> &[(u32, usize)]
        ensures { result.now ≡ (state self.now).places };
}

/// The node of the entry at this place of the history, and the entry, in constant time.
pub fn entry_at<H: Held>(held: &H, at: usize) -> (u32, &Entry)
    requires { (h : List NodeEntry) × HasHistory H.Node.journal h (H.state held.now) × (at < length h) }
    ensures node { (h : List NodeEntry) (e : NodeEntry) → HasHistory H.Node.journal h (H.state held.now) → at < length h → result.0 ≡ (get_or (reverse h) at e).node }
    ensures entry { (h : List NodeEntry) (e : NodeEntry) → HasHistory H.Node.journal h (H.state held.now) → at < length h → result.1.now ≡ (get_or (reverse h) at e).entry }
{
    let (node, place) = place_at(held.history(), at);
    match held.journal(node) {
        Some(journal) => (node, entry_in(journal, place)),
        None => unreachable!(),
    }
}

fn place_at(places: &[(u32, usize)], at: usize) -> (u32, usize)
    requires { at < length places.now }
    ensures { result ≡ get_or places.now at (0, 0) }
{
    places[at]
}

fn entry_in(journal: &Journal, place: usize) -> &Entry
    requires { place < length journal.now.items }
    ensures { (e : Entry) → result.now ≡ get_or journal.now.items place e }
{
    journal.entry(place)
}
