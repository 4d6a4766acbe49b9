// A vector's text that may come again.
ghost use Rattle.pr_text.specs.Kept.{IsBut, IsTextOf};
ghost use Rattle.pr_text.specs.Texts.{clocks, listed, part};
ghost use Rattle.pr_vectors.specs.Vector.{clock_of};
ghost use Rattle.std.specs.Prelude.{◌≡◌, ◌≤◌, ◌++◌, ◌⊎◌, [], ℕ, IfSome, List, OnErr, OnOk, drop, length, take};

use crate::packed::{clock_at, is_same_but};
use crate::piece::Piece;
use crate::pieces::{keep_piece, keep_pieces, push_parts, start_of};
use pr_script::Bytes;
use pr_stamps::{NoMemory, Seq};
use pr_vectors::{Clocked, PackedVector};
use std::alloc::Global;
use std::mem;

// A vector and the text of its clocks, each behind a comma, which is empty where none is kept.
#[derive(Drop)]
pub struct VectorText {
    vector: PackedVector,
    text: Bytes,
}

impl VectorText {
    // With no text.
    pub fn new(alloc: Global) -> VectorText
        ensures { result.text ≡ [] }
    {
        VectorText {
            vector: PackedVector::zero(),
            text: Seq::new(alloc),
        }
    }

    // The text, where it is kept for this vector.
    pub fn of(&self, vector: &PackedVector) -> Option<&[u8]>
        ensures { (labels : List (List ℕ)) → IsTextOf labels self.now → IfSome result (λ text. text.now ≡ listed (clocks labels 0 vector.now)) }
    {
        if self.text.is_empty() || !self.vector.is(vector) {
            return None;
        }
        Some(&self.text.as_slice()[1..])
    }

    // Keeps the vector's text in place of what was kept, and of its clocks those that change. The text is that of the other
    // but for the clock of this node, mostly, and else it is made anew.
    pub fn keep(
        &mut self,
        alloc: Global,
        pieces: &mut [Piece],
        other: &VectorText,
        vector: &PackedVector,
        node: usize,
    ) -> Result<(), NoMemory>
        requires this { IsTextOf pieces.old self.old }
        requires other { IsTextOf pieces.old other.now }
        ensures pieces { pieces.new ≡ pieces.old }
        ensures text { IsTextOf pieces.old self.new }
    {
        if self.of(vector).is_some() {
            return Ok(());
        }
        self.text.truncate(0);
        self.vector = vector.copy(alloc)?;
        let place = place_in(pieces, other, vector, node);
        self.make(pieces, other.text.as_slice(), place, node)
    }

    // Keeps the text of a vector that comes behind the kept one, which mostly has one clock that is greater. The kept text,
    // of which it is made then, goes to `spare`.
    pub fn renew(
        &mut self,
        alloc: Global,
        pieces: &mut [Piece],
        spare: &mut Bytes,
        vector: &PackedVector,
    ) -> Result<(), NoMemory>
        requires { IsTextOf pieces.old self.old }
        ensures pieces { pieces.new ≡ pieces.old }
        ensures text { IsTextOf pieces.old self.new }
    {
        if self.of(vector).is_some() {
            return Ok(());
        }
        let node = first_above(&self.vector, vector);
        let place = place_in(pieces, self, vector, node);
        mem::swap(&mut self.text, spare);
        self.text.truncate(0);
        self.vector = vector.copy(alloc)?;
        self.make(pieces, spare.as_slice(), place, node)
    }

    // Makes the vector's text of another, where it is known between which places the clock of this node stands in that.
    fn make(
        &mut self,
        pieces: &mut [Piece],
        other: &[u8],
        place: Option<(usize, usize)>,
        node: usize,
    ) -> Result<(), NoMemory>
        requires none { self.old.text ≡ [] }
        requires but { IfSome place (λ p. IsBut pieces.old other.now self.old.vector node p.0 p.1) }
        ensures pieces { pieces.new ≡ pieces.old }
        ensures text { IsTextOf pieces.old self.new }
    {
        match place {
            Some((start, end)) => {
                let clock = clock_at(&self.vector, node);
                keep_piece(&mut pieces[node], clock)?;
                self.splice(&pieces[node], clock, other, start, end)
            }
            None => {
                keep_pieces(pieces, &self.vector)?;
                self.fill(pieces)
            }
        }
    }

    // Makes the vector's text.
    fn fill(&mut self, pieces: &[Piece]) -> Result<(), NoMemory>
        requires { self.old.text ≡ [] }
        ensures { IsTextOf pieces.now self.new }
    {
        let made = push_parts(pieces, &self.vector, &mut self.text);
        self.none_if_refused(made)
    }

    // Makes the text of the other, with this clock's part between the places.
    fn splice(
        &mut self,
        piece: &Piece,
        clock: u64,
        other: &[u8],
        start: usize,
        end: usize,
    ) -> Result<(), NoMemory>
        requires none { self.old.text ≡ [] }
        requires rises { start ≤ end }
        requires inside { end ≤ length other.now }
        ensures vector { self.new.vector ≡ self.old.vector }
        ensures text { (self.new.text ≡ []) ⊎ (self.new.text ≡ take start other.now ++ (part piece.now clock ++ drop end other.now)) }
    {
        let made = spliced(piece, clock, other, start, end, &mut self.text);
        self.none_if_refused(made)
    }

    // A refusal leaves no text.
    fn none_if_refused(&mut self, made: Result<(), NoMemory>) -> Result<(), NoMemory>
        ensures vector { self.new.vector ≡ self.old.vector }
        ensures made { OnOk made (self.new.text ≡ self.old.text) }
        ensures refused { OnErr made (self.new.text ≡ []) }
    {
        if made.is_err() {
            self.text.truncate(0);
        }
        made
    }
}

// Adds the other text, with this clock's part in place of what stands between the places.
fn spliced(
    piece: &Piece,
    clock: u64,
    other: &[u8],
    start: usize,
    end: usize,
    text: &mut Bytes,
) -> Result<(), NoMemory>
    requires rises { start ≤ end }
    requires inside { end ≤ length other.now }
    ensures { OnOk result (text.new ≡ text.old ++ (take start other.now ++ (part piece.now clock ++ drop end other.now))) }
{
    text.extend(&other[..start])?;
    piece.push_part(clock, text)?;
    text.extend(&other[end..])
}

// Where the node's part stands in the other text, if what is before and behind it is the vector's too.
fn place_in(
    pieces: &[Piece],
    other: &VectorText,
    vector: &PackedVector,
    node: usize,
) -> Option<(usize, usize)>
    requires { IsTextOf pieces.now other.now }
    ensures { IfSome result (λ p. IsBut pieces.now other.now.text vector.now node p.0 p.1) }
{
    if other.text.is_empty() || node >= pieces.len() {
        return None;
    }
    let start = start_of(pieces, &other.vector, node)?;
    let len = pieces[node].len_of(clock_at(&other.vector, node))?;
    if is_same_but(&other.vector, vector, node) {
        Some((start, start.checked_add(len)?))
    } else {
        None
    }
}

/// The first node at which the second vector is above the first, if there is one.
pub fn first_above(from: &PackedVector, to: &PackedVector) -> usize {
    match to.next_above(from, 0) {
        Some(node) => node as usize,
        None => 0,
    }
}
