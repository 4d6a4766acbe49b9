// The nodes' parts of a vector's text.
ghost use Rattle.pr_text.specs.Texts.{clocks, listed, more};
ghost use Rattle.std.specs.Prelude.{◌≡◌, ◌≤◌, ◌++◌, IfOk, IfSome, OnOk, length, take};

use crate::packed::clock_at;
use crate::piece::Piece;
use crate::vector::push_hyphen;
use pr_script::Bytes;
use pr_stamps::NoMemory;
use pr_vectors::PackedVector;
use std::alloc::Global;

/// One for each label, with no clock.
pub fn pieces_of(alloc: Global, labels: &[Bytes]) -> Result<Vec<Piece>, NoMemory>
    ensures { IfOk result (λ pieces. pieces.items ≡ labels.now) }
{
    let mut pieces = Vec::new(alloc);
    for label in labels {
        let piece = Piece::new(alloc, label.as_slice())?;
        pieces.push(piece)?;
    }
    Ok(pieces)
}

/// Adds the vector over these nodes, in one pass over them.
pub fn push_pieces(
    pieces: &[Piece],
    vector: &PackedVector,
    text: &mut Bytes,
) -> Result<(), NoMemory>
    ensures { OnOk result (text.new ≡ text.old ++ listed (clocks pieces.now 0 vector.now)) }
{
    let mut node = 0usize;
    let mut some = false;
    for piece in pieces {
        let clock = clock_at(vector, node);
        if clock > 0 {
            piece.push(some, clock, text)?;
            some = true;
        }
        node += 1;
    }
    push_hyphen(some, text)
}

/// Adds each clock of the vector over these nodes behind a comma, in one pass over them.
pub fn push_parts(pieces: &[Piece], vector: &PackedVector, text: &mut Bytes) -> Result<(), NoMemory>
    ensures { OnOk result (text.new ≡ text.old ++ more 44 (clocks pieces.now 0 vector.now)) }
{
    let mut node = 0usize;
    for piece in pieces {
        piece.push_part(clock_at(vector, node), text)?;
        node += 1;
    }
    Ok(())
}

/// How long the text is that `push_parts` adds for the nodes below this one, where the texts of their clocks are kept.
pub fn start_of(pieces: &[Piece], vector: &PackedVector, node: usize) -> Option<usize>
    requires { node ≤ length pieces.now }
    ensures { IfSome result (λ start. start ≡ length (more 44 (clocks (take node pieces.now) 0 vector.now))) }
{
    let mut start = 0usize;
    for below in 0..node {
        let len = pieces[below].len_of(clock_at(vector, below))?;
        start = start.checked_add(len)?;
    }
    Some(start)
}

/// Keeps the clocks of a vector that are not 0, in one pass over the nodes. It takes memory only where a clock has more
/// digits than its node's had before.
pub fn keep_pieces(pieces: &mut [Piece], vector: &PackedVector) -> Result<(), NoMemory>
    ensures { pieces.new ≡ pieces.old }
{
    for node in 0..pieces.len() {
        keep_piece(&mut pieces[node], clock_at(vector, node))?;
    }
    Ok(())
}

/// Keeps the clock of one node, unless it is 0.
pub fn keep_piece(piece: &mut Piece, clock: u64) -> Result<(), NoMemory>
    ensures { piece.new ≡ piece.old }
{
    if clock > 0 { piece.keep(clock) } else { Ok(()) }
}
