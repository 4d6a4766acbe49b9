// The engine lends its nodes and sessions to jobs, and takes what they made into its history.
ghost use Rattle.pr_inval.specs.Standing.{Remembered};
ghost use Rattle.pr_merge.specs.Holding.{AddsPlaces, HeldState};
ghost use Rattle.pr_node.specs.Stored.{Stored, means};
ghost use Rattle.pr_sim.specs.Holding.{HasRoomFor, IsAttachedOfStream, IsNext, IsSentOfStream, KeepsRecords, NamesClient, RunningRepresents, held_of};
ghost use Rattle.pr_sim.specs.Running.{AreClients, AreScans, AreSent};
ghost use Rattle.pr_stamps.specs.Kept.{Kept};
ghost use Rattle.pr_story.specs.Clients.{client_node, client_vector};
ghost use Rattle.pr_story.specs.Counts.{Declared};
ghost use Rattle.pr_story.specs.History.{NodeEntry, Plan, journal};
ghost use Rattle.pr_vectors.specs.Vector.{join_of};
ghost use Rattle.std.specs.Prelude.{◌≡◌, ◌<◌, ◌≤◌, ◌+◌, ◌++◌, [], ◌∷◌, ℕ, List, MatchOption, None, OnOk, Some, get_or, length, reverse, slice_index_or, slice_set};

use crate::engine::{Engine, entry_at, journal_of, node_at};
use crate::slots::{begin, note, number, room_for, route, vector};
use pr_inval::Session;
use pr_merge::Held;
use pr_node::{Node, Scan};
use pr_stamps::{NoMemory, Roomy};
use pr_story::{Entry, Event, Journal};
use pr_vectors::Vector;

impl Held for Engine {
    type Node = Node;

    ghost state = { λ e. held_of e };

    ghost records = { λ e d h. KeepsRecords d h e };

    ghost has_room = { λ e n. HasRoomFor e n };

    fn take_node(&mut self, node: u32) -> Option<Node> {
        self.nodes[node as usize].take()
    }

    fn give_node(&mut self, node: u32, value: Node) {
        self.nodes[node as usize] = Some(value);
    }

    fn take_session(&mut self, stream: u32) -> Option<Session> {
        self.sessions[stream as usize].take()
    }

    fn give_session(&mut self, stream: u32, value: Session) {
        self.sessions[stream as usize] = Some(value);
    }

    fn journal(&self, node: u32) -> Option<&Journal> {
        match self.nodes.get(node as usize) {
            Some(slot) => journal_of(slot),
            None => None,
        }
    }

    fn route(&self, stream: u32) -> (u32, u32) {
        let ends = route(&self.routes, stream);
        (ends.source, ends.destination)
    }

    fn home(&self, client: u32) -> u32 {
        number(&self.homes, client)
    }

    fn client(&self, client: u32) -> Vector {
        *vector(&self.seen, client)
    }

    fn reserve(&mut self, more: usize) -> Result<(), NoMemory> {
        self.history.reserve(more)?;
        reserve_each(&mut self.sent, more)
    }

    fn append(&mut self, places: &[(u32, usize)]) {
        for place in places {
            let (node, at) = *place;
            self.append_one(node, at);
        }
    }

    fn history(&self) -> &[(u32, usize)] {
        self.history.as_slice()
    }
}

impl Engine {
    // Takes one entry of a node into the history.
    fn append_one(&mut self, node: u32, place: usize)
        requires next { (d : Declared) × (h : List NodeEntry) × (e : NodeEntry) × IsNext d h e self.old (node, place) × KeepsRecords d h self.old }
        requires room { HasRoomFor self.old 1 }
        ensures nodes { self.new.nodes ≡ self.old.nodes }
        ensures sessions { self.new.sessions ≡ self.old.sessions }
        ensures clients { length self.new.homes.items ≡ length self.old.homes.items }
        ensures history { self.new.history.items ≡ self.old.history.items ++ (node, place) ∷ [] }
        ensures room { (n : ℕ) → HasRoomFor self.old (n + 1) → HasRoomFor self.new n }
        ensures records { (d : Declared) (h : List NodeEntry) (e : NodeEntry) → IsNext d h e self.old (node, place) → KeepsRecords d h self.old → KeepsRecords d (e ∷ h) self.new }
    {
        let entry = entry_at(node_at(&self.nodes, node), place);
        note_client(entry, node, &mut self.homes, &mut self.seen);
        note_sending(entry, place, &mut self.sent);
        note_attach(entry, &mut self.scans);
        self.history.push((node, place));
    }
}

// Notes where an entry's client stands, and what it has seen.
fn note_client(entry: &Entry, node: u32, homes: &mut Vec<u32>, seen: &mut Vec<Vector>)
    requires known { NamesClient (length homes.old.items) entry.now.event }
    requires many { length seen.old.items ≡ length homes.old.items }
    ensures many { length homes.new.items ≡ length homes.old.items }
    ensures clients { (plan : Plan) (h : List NodeEntry) (count : ℕ) → AreClients plan h count homes.old.items seen.old.items → node < count → AreClients plan (record { node = node; entry = entry.now } ∷ h) count homes.new.items seen.new.items }
{
    match &entry.event {
        Event::Wrote {
            client,
            write,
            after,
            ..
        } => {
            let mut at = after.get();
            at.raise(&write.stamp);
            see(seen, *client, &at);
        }
        Event::Answered { client, at, .. } => see(seen, *client, &at.get()),
        Event::Moved { client } => homes[*client as usize] = node,
        _ => {}
    }
}

// A client has seen this too.
fn see(seen: &mut Vec<Vector>, client: u32, at: &Vector)
    requires { client < length seen.old.items }
    ensures { (d : List ℕ) → seen.new.items ≡ slice_set seen.old.items client (join_of (slice_index_or seen.old.items client d) at.now) }
{
    seen[client as usize] = seen[client as usize].join(at);
}

// Notes the place of the message that an entry sends, if it sends one.
fn note_sending(entry: &Entry, place: usize, sent: &mut Vec<Roomy<usize>>)
    requires known { IsSentOfStream (length sent.old.items) entry.now.event }
    requires room { (s : ℕ) (d : Kept ℕ) → s < length sent.old.items → 0 < (get_or sent.old.items s d).room }
    ensures many { length sent.new.items ≡ length sent.old.items }
    ensures room { (s : ℕ) (d : Kept ℕ) → (get_or sent.old.items s d).room ≤ (get_or sent.new.items s d).room + 1 }
    ensures sent { (node : ℕ) (h : List NodeEntry) → place ≡ length (journal h node) → AreSent h sent.old.items → AreSent (record { node = node; entry = entry.now } ∷ h) sent.new.items }
{
    if let Event::Sent { msg } = &entry.event {
        note(sent, msg.stream, place);
    }
}

// The scan of the stream that an entry attaches, if it attaches one, begins anew.
fn note_attach(entry: &Entry, scans: &mut Vec<Scan>)
    requires { IsAttachedOfStream (length scans.old.items) entry.now.event }
    ensures many { length scans.new.items ≡ length scans.old.items }
    ensures scans { (plan : Plan) (node : ℕ) (h : List NodeEntry) → AreScans plan h scans.old.items → AreScans plan (record { node = node; entry = entry.now } ∷ h) scans.new.items }
{
    if let Event::Attached { stream, .. } = &entry.event {
        begin(scans, *stream);
    }
}

// Makes room for so many more places of each stream's messages.
fn reserve_each(sent: &mut Vec<Roomy<usize>>, more: usize) -> Result<(), NoMemory>
    ensures room { OnOk result ((s : ℕ) (d : Kept ℕ) → s < length sent.new.items → more ≤ (get_or sent.new.items s d).room) }
    ensures many { length sent.new.items ≡ length sent.old.items }
    ensures items { (s : ℕ) (d : Kept ℕ) → (get_or sent.new.items s d).items ≡ (get_or sent.old.items s d).items }
{
    for stream in 0..sent.len() {
        room_for(sent, stream, more)?;
    }
    Ok(())
}

/// An engine that has run what gave a history represents it, and one that represents it has run it, where no node of it
/// was refused memory.
pub fn running_engines_represent()
    ensures { RunningRepresents }
{}
