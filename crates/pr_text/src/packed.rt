// Vectors at rest.
ghost use Rattle.pr_vectors.specs.Vector.{clock_of};
ghost use Rattle.pr_text.specs.Texts.{clocks, listed};
ghost use Rattle.std.specs.Prelude.{◌≡◌, ◌<◌, ◌++◌, ℕ, IsTrue, OnOk};

use crate::vector::{push_clock, push_hyphen};
use pr_script::Bytes;
use pr_stamps::NoMemory;
use pr_vectors::PackedVector;

/// Adds the vector over these nodes' labels, as `push_vector` does, without unpacking it.
pub fn push_clocks(
    labels: &[Bytes],
    vector: &PackedVector,
    text: &mut Bytes,
) -> Result<(), NoMemory>
    ensures { OnOk result (text.new ≡ text.old ++ listed (clocks labels.now 0 vector.now)) }
{
    let mut node = 0usize;
    let mut some = false;
    for label in labels {
        let clock = clock_at(vector, node);
        if clock > 0 {
            push_clock(some, label.as_slice(), clock, text)?;
            some = true;
        }
        node += 1;
    }
    push_hyphen(some, text)
}

/// The clock of a node; past the last node it is 0.
pub fn clock_at(vector: &PackedVector, node: usize) -> u64
    ensures { result ≡ clock_of vector.now node }
{
    let _in_range = vector.at(0);
    if node < 32 { vector.at(node as u32) } else { 0 }
}

/// Whether two vectors are the same but for the clock of this node.
pub fn is_same_but(a: &PackedVector, b: &PackedVector, node: usize) -> bool
    ensures { IsTrue result → (n : ℕ) → (n ≡ node → ⊥) → clock_of a.now n ≡ clock_of b.now n }
{
    let _in_range = (a.at(0), b.at(0));
    node < 32 && a.is_but(b, node as u32)
}
