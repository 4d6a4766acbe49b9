// A message's frame, piece by piece.
ghost use Rattle.pr_inval.specs.Messages.{IsMessage};
ghost use Rattle.pr_wire.specs.Messages.{IsInWidth};
ghost use Rattle.pr_wire.specs.Pieces.{left_text, rest_of};
ghost use Rattle.pr_wire.specs.Spelling.{content, eight, spelling};
ghost use Rattle.pr_wire.specs.declared.format.Format.{Format};
ghost use Rattle.std.specs.Prelude.{◌≡◌, ◌≤◌, ◌<◌, ◌+◌, ◌-◌, ◌%◌, ◌^◌, [], ◌∷◌, ◌++◌, length, min, take, drop, true, false, IfSome, OnErr, OnOk};

use crate::frame::HEAD;
use crate::width::known_width;
use crate::writing::{Chunk, Left, open, put_byte, put_eight, step};
use pr_inval::{Bytes, Msg};
use pr_stamps::NoMemory;

/// The frame of a message in format 2 (docs/WIRE.md), given piece by piece. Its rest is at first the whole frame. No
/// call takes memory, and none makes more of the frame than a few fields.
#[derive(Drop)]
pub struct Pieces<'a> {
    chunk: Chunk,
    at: usize,
    left: Left<'a>,
}

impl<'a> Pieces<'a> {
    /// The pieces of a message, in time linear in its frame, of which the length stands before the content. The fields
    /// up to the first list are made once, and so is a short target or body. The pieces are moved to the caller, which
    /// `begin` saves.
    pub fn new(msg: &'a Msg) -> Pieces<'a>
        requires { IsMessage msg.now }
        ensures rest { rest_of result ≡ spelling Format.Two msg.now }
        ensures width { IsInWidth msg.now }
    {
        let mut pieces = Pieces::empty();
        pieces.begin(msg);
        pieces
    }

    /// The pieces of nothing, in constant time.
    #[inline(always)]
    pub fn empty() -> Pieces<'a>
        ensures { rest_of result ≡ [] }
    {
        Pieces::of(Chunk::new(), Left::Nothing)
    }

    /// Forgets the rest, and begins a message in its place, as `new` does, in time linear in its frame. The fields are
    /// made where these pieces stand, and not moved.
    pub fn begin(&mut self, msg: &'a Msg)
        requires { IsMessage msg.now }
        ensures rest { rest_of self.new ≡ spelling Format.Two msg.now }
        ensures width { IsInWidth msg.now }
    {
        known_width(msg);
        self.chunk.clear();
        self.at = 0;
        put_head(&mut self.chunk);
        self.left = open(msg, &mut self.chunk);
        let len = len_of(self.left).wrapping_add(self.chunk.len() as u64 - HEAD as u64);
        set_length(&mut self.chunk, len);
    }

    // What is in the chunk, and then what is left.
    #[inline(always)]
    pub(crate) fn of(chunk: Chunk, left: Left<'a>) -> Pieces<'a>
        ensures { rest_of result ≡ chunk.items ++ left_text left.entry }
    {
        Pieces { chunk, at: 0, left }
    }

    /// The whole rest, where all of it is made, in constant time. So it is from the start for a precise message, for a
    /// body of at most 512 bytes, and for a target before whose last interval the frame has at most 533 bytes.
    pub fn whole(&self) -> Option<&[u8]>
        ensures { IfSome result (λ bytes. bytes.now ≡ rest_of self.now) }
    {
        match self.left {
            Left::Nothing => self.chunk.as_slice().get(self.at..),
            _ => None,
        }
    }

    /// Gives the first bytes of the rest, as many as the buffer takes, and takes them off the rest. It gives 0 just
    /// where the rest is empty. The time is linear in what it gives.
    pub fn next(&mut self, buf: &mut [u8]) -> usize
        requires { 0 < length buf.old }
        ensures count { result ≡ min (length buf.old) (length (rest_of self.old)) }
        ensures bytes { take result buf.new ≡ take result (rest_of self.old) }
        ensures rest { rest_of self.new ≡ drop result (rest_of self.old) }
    {
        let mut filled = 0;
        while filled < buf.len() && self.refill() {
            let count = copy_front(buf, filled, &self.chunk.as_slice()[self.at..]);
            self.at += count;
            filled += count;
        }
        filled
    }

    /// Adds the whole rest at the end, in time linear in it. A refusal leaves the bytes.
    pub(crate) fn append_to(&mut self, out: &mut Bytes) -> Result<(), NoMemory>
        ensures ok { OnOk result (out.new ≡ out.old ++ rest_of self.old) }
        ensures err { OnErr result (out.new ≡ out.old) }
    {
        let len = out.len();
        while self.refill() {
            if out.extend(&self.chunk.as_slice()[self.at..]).is_err() {
                out.truncate(len);
                return Err(NoMemory);
            }
            self.at = self.chunk.len();
        }
        Ok(())
    }

    // Makes the next chunk where this one is given; whether there are bytes to give.
    fn refill(&mut self) -> bool
        ensures rest { rest_of self.new ≡ rest_of self.old }
        ensures some { result ≡ true → self.new.at < length self.new.chunk.items }
        ensures none { result ≡ false → length (rest_of self.old) ≡ 0 }
    {
        if self.at < self.chunk.len() {
            return true;
        }
        self.left = step(self.left, &mut self.chunk);
        self.at = 0;
        !self.chunk.is_empty()
    }
}

// The format, and room for the length of the content.
fn put_head(chunk: &mut Chunk)
    requires { chunk.old.items ≡ [] }
    ensures text { chunk.new.items ≡ 2 ∷ eight 0 }
    ensures size { length chunk.new.items ≡ 9 }
{
    put_byte(chunk, 2);
    put_eight(chunk, 0);
}

// Writes the length of the content into its room.
fn set_length(chunk: &mut Chunk, len: u64)
    requires { 9 ≤ length chunk.old.items }
    ensures { chunk.new.items ≡ take 1 chunk.old.items ++ (eight len ++ drop 9 chunk.old.items) }
{
    chunk.as_mut_slice()[1..HEAD].copy_from_slice(&len.to_be_bytes());
}

// How many bytes are left, as 8 bytes hold it. What is left of lists is written for that, and a body is not.
fn len_of(left: Left) -> u64
    ensures { result ≡ length (left_text left.entry) % 2 ^ 64 }
{
    match left {
        Left::Nothing => return 0,
        Left::Bytes(bytes) => return bytes.len() as u64,
        _ => {}
    }
    let mut chunk = Chunk::new();
    let mut rest = step(left, &mut chunk);
    let mut len = chunk.len() as u64;
    while !chunk.is_empty() {
        rest = step(rest, &mut chunk);
        len = len.wrapping_add(chunk.len() as u64);
    }
    len
}

// Copies the first bytes into the buffer, behind those that are filled, as many as it takes.
fn copy_front(buf: &mut [u8], filled: usize, bytes: &[u8]) -> usize
    requires { filled ≤ length buf.old }
    ensures count { result ≡ min (length buf.old - filled) (length bytes.now) }
    ensures bytes { take (filled + result) buf.new ≡ take filled buf.old ++ take result bytes.now }
{
    let count = bytes.len().min(buf.len() - filled);
    buf[filled..filled + count].copy_from_slice(&bytes[..count]);
    count
}
