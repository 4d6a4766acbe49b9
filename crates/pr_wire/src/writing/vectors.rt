// Vectors, and what one has above another.
ghost use Rattle.pr_wire.specs.Spelling.{above, eight, entry_text, rise_text, vector_text};
ghost use Rattle.std.specs.Prelude.{◌≡◌, ◌≤◌, ◌<◌, ◌+◌, ◌∷◌, ◌++◌, length, drop, flat_map, take};

use crate::writing::chunk::{Chunk, put_byte, put_eight};
use pr_vectors::{Clocked, PackedVector, Vector};

// The clock of a node.
fn put_entry(chunk: &mut Chunk, node: u32, clock: u64)
    requires room { length chunk.old.items + 9 ≤ 704 }
    requires node { node < 32 }
    ensures text { chunk.new.items ≡ chunk.old.items ++ node ∷ eight clock }
    ensures size { length chunk.new.items ≡ length chunk.old.items + 9 }
{
    put_byte(chunk, node as u8);
    put_eight(chunk, clock);
}

// Writes the byte over the one at this place.
fn set_byte(chunk: &mut Chunk, at: usize, byte: u8)
    requires { at < length chunk.old.items }
    ensures { chunk.new.items ≡ take at chunk.old.items ++ byte ∷ drop (at + 1) chunk.old.items }
{
    chunk.as_mut_slice()[at] = byte;
}

// The entries of the nodes at which the second vector is above the first, and how many they are.
fn put_above<V: Clocked>(chunk: &mut Chunk, from: &V, to: &V) -> u8
    requires room { length chunk.old.items + 288 ≤ 704 }
    ensures text { chunk.new.items ≡ chunk.old.items ++ flat_map entry_text (above (V.clocks from.now) (V.clocks to.now) 0 32) }
    ensures count { result ≡ length (above (V.clocks from.now) (V.clocks to.now) 0 32) }
    ensures size { length chunk.new.items ≤ length chunk.old.items + 288 }
    ensures grows { length chunk.old.items ≤ length chunk.new.items }
{
    let mut count = 0;
    let mut start = 0;
    while let Some(node) = to.next_above(from, start) {
        put_entry(chunk, node, to.clock(node));
        count += 1;
        start = node + 1;
    }
    count
}

// What the second vector has above the first. How many nodes that are is set behind their entries, so that the vectors
// are gone over once.
#[tactic(auto, unfolding(crate::specs::Spelling::rise_text))]
fn put_rise<V: Clocked>(chunk: &mut Chunk, from: &V, to: &V)
    requires { length chunk.old.items + 289 ≤ 704 }
    ensures text { chunk.new.items ≡ chunk.old.items ++ rise_text (V.clocks from.now) (V.clocks to.now) }
    ensures size { length chunk.new.items ≤ length chunk.old.items + 289 }
    ensures grows { length chunk.old.items ≤ length chunk.new.items }
{
    let at = chunk.len();
    put_byte(chunk, 0);
    let count = put_above(chunk, from, to);
    set_byte(chunk, at, count);
}

/// What the vector has above the zero vector.
#[tactic(auto, unfolding(crate::specs::Spelling::vector_text))]
pub fn put_vector(chunk: &mut Chunk, vector: &Vector)
    requires { length chunk.old.items + 289 ≤ 704 }
    ensures text { chunk.new.items ≡ chunk.old.items ++ vector_text vector.now }
    ensures size { length chunk.new.items ≤ length chunk.old.items + 289 }
    ensures grows { length chunk.old.items ≤ length chunk.new.items }
{
    put_rise(chunk, &Vector::zero(), vector);
}

/// The same of a packed vector, which is not unpacked.
#[tactic(auto, unfolding(crate::specs::Spelling::vector_text))]
pub fn put_packed(chunk: &mut Chunk, vector: &PackedVector)
    requires { length chunk.old.items + 289 ≤ 704 }
    ensures text { chunk.new.items ≡ chunk.old.items ++ vector_text vector.now }
    ensures size { length chunk.new.items ≤ length chunk.old.items + 289 }
    ensures grows { length chunk.old.items ≤ length chunk.new.items }
{
    put_rise(chunk, &PackedVector::zero(), vector);
}

/// Where the points of a message start, and what their end has above that.
pub fn put_points(chunk: &mut Chunk, from: &PackedVector, to: &PackedVector)
    requires { length chunk.old.items + 578 ≤ 704 }
    ensures text { chunk.new.items ≡ chunk.old.items ++ (vector_text from.now ++ rise_text from.now to.now) }
    ensures size { length chunk.new.items ≤ length chunk.old.items + 578 }
    ensures grows { length chunk.old.items ≤ length chunk.new.items }
{
    put_packed(chunk, from);
    put_rise(chunk, from, to);
}
