// Told points.
ghost use Rattle.pr_inval.specs.declared.kind.Kind.{Kind};
ghost use Rattle.pr_sets.specs.Spans.{has};
ghost use Rattle.pr_story.specs.History.{Accepts, HasAccepted};
ghost use Rattle.pr_story.specs.Search.{IsFirstAt, IsFirstUntold, IsOutside, point};
ghost use Rattle.pr_vectors.specs.UpTo.{IsLastClock};
ghost use Rattle.pr_story.specs.Told.{IsLastPrecise, IsTold, TellsPoint};
ghost use Rattle.pr_vectors.specs.Vector.{Between, clock_of};
ghost use Rattle.std.specs.Prelude.{◌≡◌, ◌≢◌, ◌≤◌, ◌<◌, ◌↔◌, ℕ, IsTrue, length, reverse};

use crate::plain::either;
use crate::plain::vectors::current_vector;
use crate::{Entry, Event};
use pr_inval::Kind;
use pr_sets::NameSet;
use pr_stamps::{NODES, Stamp};
use pr_vectors::{PackedVector, Vector};

// Whether the point lies between the vectors.
pub fn is_between(from: &Vector, to: &Vector, point: &Stamp) -> bool
    ensures { IsTrue result ↔ Between from.now to.now point.now }
{
    let clock = point.clock();
    from.at(point.node()) < clock && clock <= to.at(point.node())
}

// Whether an invalidation between these vectors covers the point.
pub fn is_covered(from: &PackedVector, to: &PackedVector, point: &Stamp) -> bool
    ensures { IsTrue result ↔ Between from.now to.now point.now }
{
    let clock = point.clock();
    from.at(point.node()) < clock && clock <= to.at(point.node())
}

// Whether the message tells the point for the set.
fn tells(kind: &Kind, set: &NameSet, point: &Stamp) -> bool
    ensures { IsTrue result ↔ TellsPoint kind.now (has set.now) point.now }
{
    match kind {
        Kind::Precise { from, to, .. } => is_covered(from, to, point),
        Kind::Imprecise { from, to, target } => is_covered(from, to, point) && !target.meets(set),
        Kind::Checkpoint { to, target, .. } => {
            is_between(&Vector::zero(), &to.get(), point) && !target.meets(set)
        }
        Kind::Body { .. } => false,
    }
}

// Whether the event is an accepted message that tells the point for the set.
fn event_tells(event: &Event, set: &NameSet, point: &Stamp) -> bool
    ensures { IsTrue result ↔ ((k : Kind) × Accepts event.now k × TellsPoint k (has set.now) point.now) }
{
    match event {
        Event::Accepted { msg, .. } => tells(&msg.kind, set, point),
        _ => false,
    }
}

// Whether one of the accepted messages tells the point for the set.
fn one_tells(entries: &[Entry], set: &NameSet, point: &Stamp) -> bool
    ensures { IsTrue result ↔ ((k : Kind) × HasAccepted (reverse entries.now) k × TellsPoint k (has set.now) point.now) }
{
    let mut told = false;
    for entry in entries {
        let here = event_tells(&entry.event, set, point);
        told = either(told, here);
    }
    told
}

/// Whether the node was told of the point for the set: it is its own, and its vector covers it, or one accepted message
/// covers it and has a target that shares no name with the set. Two passes.
pub fn is_told(node: u32, entries: &[Entry], set: &NameSet, point: &Stamp) -> bool
    ensures { IsTrue result ↔ IsTold node (reverse entries.now) (has set.now) point.now }
{
    let own = point.node() == node && current_vector(entries).covers(point);
    own || one_tells(entries, set, point)
}

// The point of this clock and node, if it is covered and not told.
fn untold_point(
    node: u32,
    entries: &[Entry],
    vector: &Vector,
    set: &NameSet,
    clock: u64,
    n: u32,
) -> Option<Stamp>
    requires { n < 32 }
    ensures { IsOutside (IsTold node (reverse entries.now) (has set.now)) vector.now (point clock n) result }
{
    let most = vector.at(n);
    let stamp = Stamp::new(clock, n)?;
    if clock <= most && !is_told(node, entries, set, &stamp) {
        Some(stamp)
    } else {
        None
    }
}

// The first covered point of this clock that is not told.
fn untold_at(
    node: u32,
    entries: &[Entry],
    vector: &Vector,
    set: &NameSet,
    clock: u64,
) -> Option<Stamp>
    ensures { IsFirstAt (IsTold node (reverse entries.now) (has set.now)) vector.now clock 32 result }
{
    for n in 0..NODES {
        match untold_point(node, entries, vector, set, clock, n) {
            Some(stamp) => return Some(stamp),
            None => {}
        }
    }
    None
}

/// The least point, in the order of stamps, that the node's vector covers and that it was not told for the set; None
/// where the set is precise. It looks at each clock up to the vector's greatest one.
pub fn first_untold(node: u32, entries: &[Entry], set: &NameSet) -> Option<Stamp>
    ensures { IsFirstUntold node (reverse entries.now) set.now result }
{
    let vector = current_vector(entries);
    for before in 0..vector.greatest() {
        match untold_at(node, entries, &vector, set, before + 1) {
            Some(stamp) => return Some(stamp),
            None => {}
        }
    }
    None
}

// The greatest clock of the node n up to which each of its points is told.
fn run(node: u32, entries: &[Entry], vector: &Vector, set: &NameSet, n: u32) -> u64
    requires { n < 32 }
    ensures run { IsLastClock (IsTold node (reverse entries.now) (has set.now)) vector.now n result }
    ensures range { result ≤ 4611686018427387903 }
{
    let most = vector.at(n);
    for before in 0..most {
        match untold_point(node, entries, vector, set, before + 1, n) {
            Some(_) => return before,
            None => {}
        }
    }
    most
}

// The vector with this clock of the node n, which it lacks.
fn with_clock(vector: &Vector, clock: u64, n: u32) -> Vector
    requires node { n < 32 }
    requires clock { clock ≤ 4611686018427387903 }
    requires lacks { clock_of vector.now n ≡ 0 }
    ensures length { length result ≡ 32 }
    ensures here { clock_of result n ≡ clock }
    ensures others { (w : ℕ) → w < 32 → w ≢ n → clock_of result w ≡ clock_of vector.now w }
{
    let _ = vector.at(n);
    let mut raised = *vector;
    if let Some(stamp) = Stamp::new(clock, n) {
        raised.raise(&stamp);
    }
    raised
}

/// Per writer the greatest clock, at most the vector's, up to which each point is told for the set.
pub fn last_precise(node: u32, entries: &[Entry], set: &NameSet) -> Vector
    ensures { IsLastPrecise node (reverse entries.now) (has set.now) result }
{
    let vector = current_vector(entries);
    let mut last = Vector::zero();
    for n in 0..NODES {
        last = with_clock(&last, run(node, entries, &vector, set, n), n);
    }
    last
}
