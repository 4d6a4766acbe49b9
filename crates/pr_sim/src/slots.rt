// What stands at a place of a list.
ghost use Rattle.pr_node.specs.Scanning.{fresh};
ghost use Rattle.pr_sim.specs.declared.engine.Route.{Route};
ghost use Rattle.pr_stamps.specs.Kept.{Kept};
ghost use Rattle.pr_story.specs.declared.entry.Entry.{Entry};
ghost use Rattle.pr_node.specs.Calls.{IsTurned};
ghost use Rattle.pr_sim.specs.Places.{HasNoted};
ghost use Rattle.pr_story.specs.Places.{sent_after};
ghost use Rattle.std.specs.Prelude.{◌≡◌, ◌<◌, ◌≤◌, ◌++◌, [], ◌∷◌, ℕ, List, None, OnOk, Some, length, slice_index_or, slice_set};

use crate::engine::Route;
use pr_node::{Scan, Turned};
use pr_stamps::{NoMemory, Roomy};
use pr_vectors::Vector;

pub fn number(numbers: &Vec<u32>, at: u32) -> u32
    requires { at < length numbers.now.items }
    ensures { result ≡ slice_index_or numbers.now.items at 0 }
{
    numbers[at as usize]
}

pub fn vector(vectors: &Vec<Vector>, at: u32) -> &Vector
    requires { at < length vectors.now.items }
    ensures { (d : List ℕ) → result.now ≡ slice_index_or vectors.now.items at d }
{
    &vectors[at as usize]
}

pub fn route(routes: &Vec<Route>, at: u32) -> Route
    requires { at < length routes.now.items }
    ensures { (d : Route) → result ≡ slice_index_or routes.now.items at d }
{
    routes[at as usize]
}

// Makes room to note so many places of a stream's messages.
pub fn room_for(sent: &mut Vec<Roomy<usize>>, stream: usize, more: usize) -> Result<(), NoMemory>
    requires { stream < length sent.old.items }
    ensures room { OnOk result ((d : Kept ℕ) → more ≤ (slice_index_or sent.new.items stream d).room) }
    ensures many { length sent.new.items ≡ length sent.old.items }
    ensures items { (s : ℕ) (d : Kept ℕ) → (slice_index_or sent.new.items s d).items ≡ (slice_index_or sent.old.items s d).items }
    ensures others { (s : ℕ) (d : Kept ℕ) → (s ≡ stream → ⊥) → slice_index_or sent.new.items s d ≡ slice_index_or sent.old.items s d }
{
    sent[stream].reserve(more)
}

// Notes the place of a stream's message, for which there is room.
pub fn note(sent: &mut Vec<Roomy<usize>>, stream: u32, place: usize)
    requires known { stream < length sent.old.items }
    requires room { (d : Kept ℕ) → 0 < (slice_index_or sent.old.items stream d).room }
    ensures { HasNoted sent.old.items sent.new.items stream (λ before. before ++ place ∷ []) }
{
    sent[stream as usize].push(place);
}

// Notes the place of the message of a turn, if it sent one.
pub fn note_turn(sent: &mut Vec<Roomy<usize>>, stream: u32, turned: Turned, place: usize)
    requires known { stream < length sent.old.items }
    requires room { (d : Kept ℕ) → 0 < (slice_index_or sent.old.items stream d).room }
    ensures { (e : Entry) → IsTurned stream turned e → HasNoted sent.old.items sent.new.items stream (sent_after e.event stream place) }
{
    if let Turned::Sent = turned {
        note(sent, stream, place);
    }
}

// The stream's scan begins anew.
pub fn begin(scans: &mut Vec<Scan>, stream: u32)
    requires { stream < length scans.old.items }
    ensures { scans.new.items ≡ slice_set scans.old.items stream fresh }
{
    scans[stream as usize].begin();
}
