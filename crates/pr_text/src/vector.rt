// Vectors.
ghost use Rattle.pr_vectors.specs.Vector.{clock_of};
ghost use Rattle.pr_text.specs.Texts.{clocks, listed, vector_text};
ghost use Rattle.std.specs.Prelude.{◌≡◌, ◌++◌, ◌∷◌, [], OnOk, decimal, cond};

use crate::stamp::push_digits;
use pr_script::{Bytes, Decls, Kind};
use pr_stamps::NoMemory;
use pr_vectors::Vector;

/// Adds LABEL:CLOCK for each node that has a clock, joined by commas, or a hyphen for the zero vector, in one pass over
/// the nodes.
pub fn push_vector(decls: &Decls, vector: &Vector, text: &mut Bytes) -> Result<(), NoMemory>
    ensures { OnOk result (text.new ≡ text.old ++ vector_text decls.now.list vector.now) }
{
    push_clocks(decls.labels(Kind::Node), vector, text)
}

// Adds the vector over these nodes' labels.
fn push_clocks(labels: &[Bytes], vector: &Vector, text: &mut Bytes) -> Result<(), NoMemory>
    ensures { OnOk result (text.new ≡ text.old ++ listed (clocks labels.now 0 vector.now)) }
{
    let mut node = 0usize;
    let mut some = false;
    for label in labels {
        let clock = clock_at(vector, node);
        if clock > 0 {
            push_clock(some, label.as_slice(), clock, text)?;
            some = true;
        }
        node += 1;
    }
    push_hyphen(some, text)
}

/// Adds a hyphen where there is nothing.
pub fn push_hyphen(some: bool, text: &mut Bytes) -> Result<(), NoMemory>
    ensures { OnOk result (text.new ≡ text.old ++ cond some [] (45 ∷ [])) }
{
    if some { Ok(()) } else { text.push(b'-') }
}

/// Adds one clock, behind a comma where some stand before it.
pub fn push_clock(some: bool, label: &[u8], clock: u64, text: &mut Bytes) -> Result<(), NoMemory>
    ensures { OnOk result (text.new ≡ text.old ++ cond some (44 ∷ []) [] ++ label.now ++ 58 ∷ decimal clock) }
{
    if some {
        text.push(b',')?;
    }
    text.extend(label)?;
    text.push(b':')?;
    push_digits(clock, text)
}

// The clock of a node; past the last node it is 0.
fn clock_at(vector: &Vector, node: usize) -> u64
    ensures { result ≡ clock_of vector.now node }
{
    let _in_range = vector.at(0);
    if node < 32 { vector.at(node as u32) } else { 0 }
}
