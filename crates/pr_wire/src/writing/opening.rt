// The first fields of a message's content.
ghost use Rattle.pr_wire.specs.Pieces.{left_text};
ghost use Rattle.pr_wire.specs.Spelling.{content, kind_byte, kind_text, span_text};
ghost use Rattle.pr_wire.specs.declared.format.Format.{Format};
ghost use Rattle.std.specs.Prelude.{◌≡◌, ◌≤◌, ◌+◌, [], ◌++◌, length, flat_map, max};

use crate::writing::chunk::{Chunk, put, put_byte, put_eight, put_four};
use crate::writing::fields::{put_name, put_span, put_stamp, put_write};
use crate::writing::left::Left;
use crate::writing::vectors::{put_packed, put_points};
use pr_inval::{Kind, Msg};
use pr_names::Interval;

// Behind at most so many bytes one interval more is added.
const ROOM: usize = 533;

// A body of at most so many bytes is added.
const SHORT: usize = 512;

fn kind_byte(kind: &Kind) -> u8
    ensures { result ≡ kind_byte kind.now }
{
    match kind {
        Kind::Precise { .. } => 1,
        Kind::Imprecise { .. } => 2,
        Kind::Checkpoint { .. } => 3,
        Kind::Body { .. } => 4,
    }
}

/// Adds the fields up to the first list, with an imprecise message's target, or a body, where that is short, and says
/// what is left.
#[tactic(auto, unfolding(crate::specs::Spelling::content))]
pub fn open<'a>(msg: &'a Msg, chunk: &mut Chunk) -> Left<'a>
    requires { length chunk.old.items ≤ 9 }
    ensures text { chunk.old.items ++ content Format.Two msg.now ≡ chunk.new.items ++ left_text result }
    ensures grows { length chunk.old.items ≤ length chunk.new.items }
    ensures size { length chunk.new.items ≤ length chunk.old.items + 684 }
{
    put_byte(chunk, kind_byte(&msg.kind));
    put_eight(chunk, msg.time);
    put_four(chunk, msg.stream);
    put_eight(chunk, msg.number);
    open_kind(&msg.kind, chunk)
}

#[tactic(auto, unfolding(crate::specs::Spelling::kind_text, crate::specs::Spelling::end_text, crate::specs::Spelling::list_text))]
fn open_kind<'a>(kind: &'a Kind, chunk: &mut Chunk) -> Left<'a>
    requires { length chunk.old.items ≤ 30 }
    ensures text { chunk.old.items ++ kind_text Format.Two kind.now ≡ chunk.new.items ++ left_text result }
    ensures grows { length chunk.old.items ≤ length chunk.new.items }
    ensures size { length chunk.new.items ≤ length chunk.old.items + 663 }
{
    match kind {
        Kind::Precise { from, to, write } => {
            put_points(chunk, from, to);
            put_write(chunk, write);
            Left::Nothing
        }
        Kind::Imprecise { from, to, target } => {
            put_points(chunk, from, to);
            put_eight(chunk, target.count() as u64);
            put_target(chunk, target.parts())
        }
        Kind::Checkpoint {
            to,
            target,
            floor,
            rows,
        } => {
            put_packed(chunk, to);
            put_eight(chunk, target.count() as u64);
            Left::Checkpoint {
                target: target.parts(),
                floor,
                rows: rows.as_slice(),
            }
        }
        Kind::Body { name, stamp, bytes } => {
            put_name(chunk, name);
            put_stamp(chunk, stamp);
            put_eight(chunk, bytes.len() as u64);
            put_body(chunk, bytes.as_slice())
        }
    }
}

// Adds the first intervals, as long as there is room, and says what is left.
fn put_target<'a>(chunk: &mut Chunk, parts: &'a [Interval]) -> Left<'a>
    ensures text { chunk.old.items ++ flat_map span_text parts.now ≡ chunk.new.items ++ left_text result }
    ensures grows { length chunk.old.items ≤ length chunk.new.items }
    ensures size { length chunk.new.items ≤ max (length chunk.old.items) 663 }
{
    let mut left = parts;
    while let [part, rest @ ..] = left {
        if chunk.len() > ROOM {
            return Left::Target(left);
        }
        put_span(chunk, part);
        left = rest;
    }
    Left::Nothing
}

// Adds a body where it is short, or says that it is left.
fn put_body<'a>(chunk: &mut Chunk, bytes: &'a [u8]) -> Left<'a>
    requires { length chunk.old.items ≤ 112 }
    ensures text { chunk.old.items ++ bytes.now ≡ chunk.new.items ++ left_text result }
    ensures grows { length chunk.old.items ≤ length chunk.new.items }
    ensures size { length chunk.new.items ≤ length chunk.old.items + 512 }
{
    if bytes.len() > SHORT {
        return Left::Bytes(bytes);
    }
    put(chunk, bytes);
    Left::Nothing
}
