// The memory of a phase, taken before its first job starts.
ghost use Rattle.pr_crew.specs.declared.work.Work.{Work};
ghost use Rattle.pr_crew.specs.Assembly.{parts_of};
ghost use Rattle.pr_crew.specs.Rooms.{CanAppend, HasAppended, HasMadeSince, HasPlacesFor, HasRoomFor, IsBehind, KnowsOpening, total_at};
ghost use Rattle.pr_crew.specs.Sites.{IsHere};
ghost use Rattle.pr_crew.specs.Works.{IsSmall, all_at, most_at};
ghost use Rattle.pr_node.specs.Stored.{Stored, means};
ghost use Rattle.pr_story.specs.declared.entry.Entry.{Entry};
ghost use Rattle.pr_story.specs.Counts.{Declared};
ghost use Rattle.pr_story.specs.History.{NodeEntry, Plan};
ghost use Rattle.pr_story.specs.Merging.{New};
ghost use Rattle.std.specs.Prelude.{◌≡◌, ◌≤◌, ◌<◌, ◌+◌, ◌*◌, ◌^◌, ◌==◌, [], ◌∷◌, ◌++◌, if◌then◌else◌, ℕ, All, Contains, IfOk, List, None, OnOk, Some, drop, get_or, length, map, vec_capacity, vec_len};

use crate::work::Work;
use pr_merge::{Held, merge};
use pr_node::Node;
use pr_stamps::{NoMemory, Roomy, Seq};
use pr_story::Journal;
use std::alloc::Global;
use std::mem;

/// Room for the times of each node's entries, and for the places of all entries.
#[derive(Drop)]
pub(crate) struct Room {
    alloc: Global,
    // How many entries each node had.
    pub(crate) opened: Vec<usize>,
    // By node.
    pub(crate) times: Vec<Vec<u64>>,
    pub(crate) parts: Vec<Seq<u64>>,
    pub(crate) merged: Roomy<(u32, usize)>,
    pub(crate) places: Roomy<(u32, usize)>,
}

/// Takes room for all that these jobs can make at so many nodes.
pub(crate) fn take<H: Held<Node = Node>>(
    alloc: Global,
    held: &mut H,
    works: &[Work],
    count: u32,
) -> Result<Room, NoMemory>
    requires here { (plan : Plan) × (h : List NodeEntry) × ((n : ℕ) → n < count → IsHere plan h (H.state held.old) n) }
    requires small { All IsSmall works.now × (length works.now ≤ 64) × (count ≤ 32) }
    ensures room { IfOk result (HasRoomFor works.now count) }
    ensures opened { (plan : Plan) (h : List NodeEntry) → ((n : ℕ) → n < count → IsHere plan h (H.state held.old) n) → IfOk result (KnowsOpening h count) }
    ensures history { OnOk result ((n : ℕ) → n ≤ total_at works.now count → H.has_room held.new n) }
    ensures state { H.state held.new ≡ H.state held.old }
    ensures records { (d : Declared) (h : List NodeEntry) → H.records held.old d h → H.records held.new d h }
{
    let mut room = Room {
        alloc,
        opened: Vec::with_capacity(alloc, count as usize)?,
        times: Vec::with_capacity(alloc, count as usize)?,
        parts: Vec::with_capacity(alloc, count as usize)?,
        merged: Roomy::new(alloc),
        places: Roomy::new(alloc),
    };
    let mut most = 0;
    for node in 0..count {
        let here = most_at(works, node);
        room.times.push(Vec::with_capacity(alloc, here)?)?;
        room.opened.push(len_of(held, node))?;
        most += here;
    }
    room.merged.reserve(most)?;
    room.places.reserve(most)?;
    held.reserve(most)?;
    Ok(room)
}

// The most entries that the jobs can make at a node.
fn most_at(works: &[Work], node: u32) -> usize
    requires { All IsSmall works.now × (length works.now ≤ 64) }
    ensures most { result ≡ all_at works.now node }
    ensures few { result ≤ 64 * 2000001 }
{
    let mut most = 0;
    for work in works {
        most += most_of(work, node);
    }
    most
}

fn most_of(work: &Work, node: u32) -> usize
    requires { IsSmall work.now }
    ensures most { result ≡ most_at node work.now }
    ensures few { result ≤ 2000001 }
{
    match work {
        Work::Client(work) => at(work.node, node, work.lines),
        Work::Flow(work) => {
            at(work.source, node, work.turns) + at(work.destination, node, work.turns + 1)
        }
    }
}

// So many entries, if they are at this node.
fn at(own: u32, node: u32, entries: u64) -> usize
    ensures { result ≡ (if own == node then entries else 0) }
{
    if own == node { entries as usize } else { 0 }
}

fn len_of<H: Held<Node = Node>>(held: &H, node: u32) -> usize
    ensures { (m : Stored) → get_or (H.state held.now).nodes node None ≡ Some m → result ≡ length (means m).journal }
{
    match held.journal(node) {
        Some(journal) => journal.len(),
        None => 0,
    }
}

impl Room {
    /// Adds all that the nodes have made since to the history, by time, then node.
    pub(crate) fn append<H: Held<Node = Node>>(self, held: &mut H)
        requires can { (d : Declared) × (h : List NodeEntry) × (ws : List Work) × (count : ℕ) × (nodes : ℕ → List Entry) × (jobs : ℕ → List New) × CanAppend d h ws count nodes jobs (H.state held.old) × HasRoomFor ws count self × KnowsOpening h count self × ((n : ℕ) → n ≤ total_at ws count → H.has_room held.old n) × H.records held.old d h }
        ensures appended { (d : Declared) (h : List NodeEntry) (ws : List Work) (count : ℕ) (nodes : ℕ → List Entry) (jobs : ℕ → List New) → CanAppend d h ws count nodes jobs (H.state held.old) → HasRoomFor ws count self → KnowsOpening h count self → H.records held.old d h → HasAppended (H.records held.new) d h count nodes (H.state held.old) (H.state held.new) }
    {
        let Room {
            alloc,
            opened,
            mut times,
            mut parts,
            mut merged,
            mut places,
        } = self;
        fill(alloc, held, opened.as_slice(), &mut times, &mut parts);
        merge(parts.as_slice(), &mut merged);
        shift(opened.as_slice(), merged.as_slice(), &mut places);
        held.append(places.as_slice());
    }
}

// Puts the times of what each node has made since into its part.
fn fill<H: Held<Node = Node>>(
    alloc: Global,
    held: &H,
    opened: &[usize],
    times: &mut Vec<Vec<u64>>,
    parts: &mut Vec<Seq<u64>>,
)
    requires made { (h : List NodeEntry) × (nodes : ℕ → List Entry) × ((n : ℕ) → n < length opened.now → HasMadeSince h nodes opened.now n (H.state held.now)) × ((n : ℕ) (any : _) → n < length opened.now → HasPlacesFor (nodes n) (get_or times.old.items n any)) }
    requires times { length times.old.items ≡ length opened.now }
    requires parts { (parts.old.items ≡ []) × (length opened.now ≤ vec_capacity parts.old) }
    requires few { length opened.now ≤ 32 }
    ensures parts { (h : List NodeEntry) (nodes : ℕ → List Entry) → ((n : ℕ) → n < length opened.now → HasMadeSince h nodes opened.now n (H.state held.now)) → parts.new.items ≡ parts_of nodes (length opened.now) }
    ensures fits { (h : List NodeEntry) (nodes : ℕ → List Entry) → ((n : ℕ) → n < length opened.now → HasMadeSince h nodes opened.now n (H.state held.now)) → (n : ℕ) → n < length opened.now → get_or opened.now n 0 + length (nodes n) < 2 ^ 64 }
{
    for node in 0..opened.len() {
        let room = mem::replace(&mut times[node], Vec::new(alloc));
        let made = times_since(held, node as u32, opened[node], room);
        parts.push_reserved(Seq::from_vec(made));
    }
}

// The times of what the node has made behind so many entries.
fn times_since<H: Held<Node = Node>>(
    held: &H,
    node: u32,
    opened: usize,
    times: Vec<u64>,
) -> Vec<u64>
    requires made { (before made : List Entry) × IsBehind before made node opened (H.state held.now) × HasPlacesFor made times }
    ensures times { (before made : List Entry) → IsBehind before made node opened (H.state held.now) → result.items ≡ map (λ (e : Entry). e.time) made }
    ensures fits { (before made : List Entry) → IsBehind before made node opened (H.state held.now) → opened + length made < 2 ^ 64 }
{
    match held.journal(node) {
        Some(journal) => times_behind(journal, opened, times),
        None => unreachable!(),
    }
}

// The times of the entries behind so many, in a list that has room for them.
fn times_behind(journal: &Journal, opened: usize, mut times: Vec<u64>) -> Vec<u64>
    requires opened { opened ≤ length journal.now.items }
    requires places { HasPlacesFor (drop opened journal.now.items) times }
    ensures times { result.items ≡ map (λ (e : Entry). e.time) (drop opened journal.now.items) }
    ensures fits { length journal.now.items < 2 ^ 64 }
{
    for at in 0..journal.len() - opened {
        times.push_reserved(journal.entry(opened + at).time);
    }
    times
}

// Puts the places of the parts behind what each node had.
fn shift(opened: &[usize], merged: &[(u32, usize)], places: &mut Roomy<(u32, usize)>)
    requires within { (p : ℕ × ℕ) → Contains merged.now p → (p.0 < length opened.now) × (get_or opened.now p.0 0 + p.1 < 2 ^ 64) }
    requires room { (places.old.items ≡ []) × (length merged.now ≤ places.old.room) }
    ensures { places.new.items ≡ map (λ (p : ℕ × ℕ). (p.0, get_or opened.now p.0 0 + p.1)) merged.now }
{
    for place in merged {
        places.push(behind(opened, *place));
    }
}

fn behind(opened: &[usize], place: (u32, usize)) -> (u32, usize)
    requires { (place.0 < length opened.now) × (get_or opened.now place.0 0 + place.1 < 2 ^ 64) }
    ensures { result ≡ (place.0, get_or opened.now place.0 0 + place.1) }
{
    let (node, at) = place;
    (node, opened[node as usize] + at)
}
