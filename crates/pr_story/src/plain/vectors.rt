// A node's vector, its cut and its floor.
ghost use Rattle.pr_inval.specs.Points.{to_of};
ghost use Rattle.pr_story.specs.History.{current_vector};
ghost use Rattle.pr_story.specs.Knowledge.{cut_in, cuts_of, floor_after, floor_of};
ghost use Rattle.pr_story.specs.declared.entry.Entry.{Entry};
ghost use Rattle.std.specs.Prelude.{◌≡◌, ◌∷◌, List, reverse};

use crate::{Entry, Event};
use pr_inval::Kind;
use pr_vectors::Vector;

// The end of a message.
fn end_of(kind: &Kind) -> Vector
    ensures { result ≡ to_of kind.now }
{
    match kind {
        Kind::Precise { to, .. } => to.get(),
        Kind::Imprecise { to, .. } => to.get(),
        Kind::Checkpoint { to, .. } => to.get(),
        Kind::Body { .. } => Vector::zero(),
    }
}

/// The vector, where this entry follows. In time linear in the nodes.
pub fn vector_after(entry: &Entry, vector: &Vector) -> Vector
    ensures { (j : List Entry) → vector.now ≡ current_vector j → result ≡ current_vector (entry.now ∷ j) }
{
    match &entry.event {
        Event::Wrote { write, .. } => {
            let mut raised = *vector;
            raised.raise(&write.stamp);
            raised
        }
        Event::Accepted { msg, .. } => vector.join(&end_of(&msg.kind)),
        _ => *vector,
    }
}

/// The join of the stamps of the node's own writes and the ends of the messages that it accepted. One pass.
pub fn current_vector(entries: &[Entry]) -> Vector
    ensures { result ≡ current_vector (reverse entries.now) }
{
    let mut vector = Vector::zero();
    for entry in entries {
        vector = vector_after(entry, &vector);
    }
    vector
}

fn cut_in(event: &Event) -> Vector
    ensures { result ≡ cut_in event.now }
{
    match event {
        Event::Cut { at } => at.get(),
        _ => Vector::zero(),
    }
}

/// The join of the node's cuts. One pass.
pub fn cuts_of(entries: &[Entry]) -> Vector
    ensures { result ≡ cuts_of (reverse entries.now) }
{
    let mut cuts = Vector::zero();
    for entry in entries {
        cuts = cuts.join(&cut_in(&entry.event));
    }
    cuts
}

fn floor_after(event: &Event) -> Vector
    ensures { result ≡ floor_after event.now }
{
    match event {
        Event::Cut { at } => at.get(),
        Event::Accepted { msg, .. } => match &msg.kind {
            Kind::Checkpoint { floor, .. } => floor.get(),
            _ => Vector::zero(),
        },
        _ => Vector::zero(),
    }
}

/// The join of the node's cuts and of the floors of the checkpoints that it accepted. One pass.
pub fn floor_of(entries: &[Entry]) -> Vector
    ensures { result ≡ floor_of (reverse entries.now) }
{
    let mut floor = Vector::zero();
    for entry in entries {
        floor = floor.join(&floor_after(&entry.event));
    }
    floor
}
