// Vectors.
ghost use Rattle.pr_check.specs.Fields.{Gives, items_of, parts, read_each};
ghost use Rattle.pr_check.specs.Parts.{vector_read, with_clock};
ghost use Rattle.pr_script.specs.Labels.{AreLabels};
ghost use Rattle.pr_story.specs.Counts.{HasVector};
ghost use Rattle.pr_text.specs.Numbers.{nodes_of};
ghost use Rattle.pr_vectors.specs.Vector.{IsVector, zero_vector};
ghost use Rattle.std.specs.Prelude.{◌≡◌, ℕ, All, IfOk, IfSome};

use crate::part::{cut, is_hyphen};
use crate::refusal::Refusal;
use crate::stamp::point;
use pr_script::Decl;
use pr_stamps::Seq;
use pr_vectors::{PackedVector, Vector};
use std::alloc::Global;

/// Clocks joined by commas, or a hyphen.
#[tactic(auto, unfolding(crate::specs::Parts::vector_read))]
pub fn vector(decls: &[Decl], bytes: &[u8]) -> Option<Vector>
    requires { AreLabels decls.now }
    ensures reads { result ≡ vector_read decls.now bytes.now }
    ensures range { IfSome result IsVector }
    ensures declared { IfSome result (HasVector (nodes_of decls.now)) }
{
    if is_hyphen(bytes) {
        return Some(no_clocks());
    }
    clocks(decls, bytes)
}

/// The same as an event keeps it, in memory of its own.
pub fn packed(alloc: Global, decls: &[Decl], bytes: &[u8]) -> Result<PackedVector, Refusal>
    requires { AreLabels decls.now }
    ensures reads { Gives result (vector_read decls.now bytes.now) }
    ensures range { IfOk result IsVector }
    ensures declared { IfOk result (HasVector (nodes_of decls.now)) }
{
    let vector = vector(decls, bytes).ok_or(Refusal::Unread)?;
    let packed = PackedVector::of(alloc, &vector)?;
    Ok(packed)
}

/// The zero vector.
pub fn no_clocks() -> Vector
    ensures zero { result ≡ zero_vector }
    ensures range { IsVector result }
    ensures declared { (nodes : ℕ) → HasVector nodes result }
{
    let vector = Vector::zero();
    let _ = vector.at(0);
    vector
}

fn clocks(decls: &[Decl], bytes: &[u8]) -> Option<Vector>
    requires { AreLabels decls.now }
    ensures reads { result ≡ read_each (with_clock decls.now) zero_vector (parts 44 bytes.now) }
    ensures range { IfSome result IsVector }
    ensures declared { IfSome result (HasVector (nodes_of decls.now)) }
{
    let mut vector = no_clocks();
    let mut rest = bytes;
    while !rest.is_empty() {
        let (part, more) = cut(b',', rest);
        vector = with_clock(decls, vector, part)?;
        rest = more;
    }
    Some(vector)
}

// The vector, with the clock of LABEL:CLOCK.
#[tactic(auto, unfolding(crate::specs::Parts::with_clock))]
fn with_clock(decls: &[Decl], vector: Vector, bytes: &[u8]) -> Option<Vector>
    requires labels { AreLabels decls.now }
    requires declared { HasVector (nodes_of decls.now) vector }
    ensures reads { result ≡ with_clock decls.now vector bytes.now }
    ensures range { IfSome result IsVector }
    ensures declared { IfSome result (HasVector (nodes_of decls.now)) }
{
    let (label, clock) = cut(b':', bytes);
    let stamp = point(decls, clock, label)?;
    let mut vector = vector;
    vector.raise(&stamp);
    let _ = vector.at(0);
    Some(vector)
}

/// Vectors joined by spaces.
pub fn vectors(alloc: Global, decls: &[Decl], bytes: &[u8]) -> Result<Seq<Vector>, Refusal>
    requires { AreLabels decls.now }
    ensures reads { Gives result (items_of (vector_read decls.now) (parts 32 bytes.now)) }
    ensures range { IfOk result (All IsVector) }
    ensures declared { IfOk result (All (HasVector (nodes_of decls.now))) }
{
    let mut vectors = Seq::new(alloc);
    let mut rest = bytes;
    while !rest.is_empty() {
        let (part, more) = cut(b' ', rest);
        let Some(vector) = vector(decls, part) else {
            return Err(Refusal::Unread);
        };
        vectors.push(vector)?;
        rest = more;
    }
    Ok(vectors)
}
