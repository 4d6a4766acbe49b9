// What is left to be written.
ghost use Rattle.pr_wire.specs.Pieces.{left_text};
ghost use Rattle.pr_wire.specs.Spelling.{list_text, row_text, vector_text, span_text, mark_text};
ghost use Rattle.pr_wire.specs.declared.format.Format.{Format};
ghost use Rattle.std.specs.Prelude.{◌≡◌, ◌≤◌, ◌+◌, [], ◌++◌, length, flat_map};

use crate::writing::chunk::{Chunk, put, put_eight};
use crate::writing::fields::{put_gone, put_mark, put_name, put_span, put_stamp};
use crate::writing::vectors::put_packed;
use pr_inval::Row;
use pr_names::Interval;
use pr_stamps::Mark;
use pr_vectors::PackedVector;

/// What is left of a message: items of a list with what follows them, or bytes of a body.
#[derive(Clone, Copy)]
pub enum Left<'a> {
    Nothing,
    Target(&'a [Interval]),
    Checkpoint {
        target: &'a [Interval],
        floor: &'a PackedVector,
        rows: &'a [Row],
    },
    Rows(&'a [Row]),
    Marks(&'a [Mark], &'a [Row]),
    Bytes(&'a [u8]),
}

/// Writes the next fields in place of those in the chunk, and says what is left then. There are none only where
/// nothing was left.
pub fn step<'a>(left: Left<'a>, chunk: &mut Chunk) -> Left<'a>
    ensures text { left_text left.entry ≡ chunk.new.items ++ left_text result }
    ensures none { length chunk.new.items ≡ 0 → length (left_text left.entry) ≡ 0 }
{
    chunk.clear();
    match left {
        Left::Nothing => Left::Nothing,
        Left::Target(parts) => next_span(parts, chunk),
        Left::Checkpoint {
            target,
            floor,
            rows,
        } => next_target(target, floor, rows, chunk),
        Left::Rows(rows) => next_row(rows, chunk),
        Left::Marks(marks, rows) => next_mark(marks, rows, chunk),
        Left::Bytes(bytes) => next_bytes(bytes, chunk),
    }
}

fn next_span<'a>(parts: &'a [Interval], chunk: &mut Chunk) -> Left<'a>
    requires { chunk.old.items ≡ [] }
    ensures text { flat_map span_text parts.now ≡ chunk.new.items ++ left_text result }
    ensures none { length chunk.new.items ≡ 0 → length (flat_map span_text parts.now) ≡ 0 }
{
    match parts {
        [] => Left::Nothing,
        [part, rest @ ..] => {
            put_span(chunk, part);
            Left::Target(rest)
        }
    }
}

fn next_target<'a>(
    target: &'a [Interval],
    floor: &'a PackedVector,
    rows: &'a [Row],
    chunk: &mut Chunk,
) -> Left<'a>
    requires { chunk.old.items ≡ [] }
    ensures text { flat_map span_text target.now ++ (vector_text floor.now ++ list_text (row_text Format.Two) rows.now) ≡ chunk.new.items ++ left_text result }
    ensures some { 1 ≤ length chunk.new.items }
{
    match target {
        [] => floor_of(floor, rows, chunk),
        [part, rest @ ..] => {
            put_span(chunk, part);
            Left::Checkpoint {
                target: rest,
                floor,
                rows,
            }
        }
    }
}

#[tactic(auto, unfolding(crate::specs::Spelling::list_text))]
fn floor_of<'a>(floor: &PackedVector, rows: &'a [Row], chunk: &mut Chunk) -> Left<'a>
    requires { chunk.old.items ≡ [] }
    ensures text { vector_text floor.now ++ list_text (row_text Format.Two) rows.now ≡ chunk.new.items ++ left_text result }
    ensures some { 1 ≤ length chunk.new.items }
{
    put_packed(chunk, floor);
    put_eight(chunk, rows.len() as u64);
    Left::Rows(rows)
}

#[tactic(auto, unfolding(crate::specs::Spelling::row_text, crate::specs::Spelling::list_text))]
fn next_row<'a>(rows: &'a [Row], chunk: &mut Chunk) -> Left<'a>
    requires { chunk.old.items ≡ [] }
    ensures text { flat_map (row_text Format.Two) rows.now ≡ chunk.new.items ++ left_text result }
    ensures none { length chunk.new.items ≡ 0 → length (flat_map (row_text Format.Two) rows.now) ≡ 0 }
{
    match rows {
        [] => Left::Nothing,
        [row, rest @ ..] => {
            put_name(chunk, &row.name);
            put_stamp(chunk, &row.newest);
            put_gone(chunk, row.gone);
            put_eight(chunk, row.marks.len() as u64);
            Left::Marks(row.marks.as_slice(), rest)
        }
    }
}

fn next_mark<'a>(marks: &'a [Mark], rows: &'a [Row], chunk: &mut Chunk) -> Left<'a>
    requires { chunk.old.items ≡ [] }
    ensures text { flat_map mark_text marks.now ++ flat_map (row_text Format.Two) rows.now ≡ chunk.new.items ++ left_text result }
    ensures none { length chunk.new.items ≡ 0 → length (flat_map mark_text marks.now ++ flat_map (row_text Format.Two) rows.now) ≡ 0 }
{
    match marks {
        [] => next_row(rows, chunk),
        [mark, rest @ ..] => {
            put_mark(chunk, mark);
            Left::Marks(rest, rows)
        }
    }
}

// At most 704 bytes of a body.
fn next_bytes<'a>(bytes: &'a [u8], chunk: &mut Chunk) -> Left<'a>
    requires { chunk.old.items ≡ [] }
    ensures text { bytes.now ≡ chunk.new.items ++ left_text result }
    ensures none { length chunk.new.items ≡ 0 → length (bytes.now) ≡ 0 }
{
    let (front, rest) = bytes.split_at(bytes.len().min(704));
    put(chunk, front);
    Left::Bytes(rest)
}
