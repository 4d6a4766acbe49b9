// A stream of frames, as it comes.
ghost use Rattle.pr_inval.specs.declared.msg.Msg.{Msg};
ghost use Rattle.pr_wire.specs.Feeding.{AreBytes, HasAnswered, HoldsJust, new_feed, pushed};
ghost use Rattle.std.specs.Prelude.{◌≡◌, ◌≤◌, ◌<◌, ◌^◌, ◌↔◌, [], length, IfOk, IsTrue, OnErr, OnOk};

use crate::fault::Fault;
use crate::frame::{HEAD, Head, read_head};
use crate::law::{messages_are_never_bad, no_frame_begins_another};
use crate::next::Next;
use crate::reading::message;
use pr_inval::Msg;
use pr_stamps::{NoMemory, drop_front};
use std::alloc::Global;
use std::marker::Model;

/// A stream of frames that comes in pieces (docs/WIRE.md). It stands for its rest, the bytes that were pushed and
/// not yet given, and for the number of bytes given. Memory is taken for bytes that have come, and never for a
/// length or a count that they give.
#[derive(Drop)]
pub struct Feed {
    alloc: Global,
    limit: u64,
    bytes: Vec<u8>,
    start: usize,
    given: u64,
}

impl Model for Feed {
    ghost use Rattle.std.specs.Prelude.{◌≤◌, length, drop};
    ghost use Rattle.pr_wire.specs.Feeding.{Fed};

    ghost Value = { Fed };

    ghost view = { λ f. record { limit = f.limit; rest = drop f.start f.bytes.items; given = f.given } };

    ghost invariant = { λ f. f.start ≤ length f.bytes.items };
}

impl Feed {
    /// A feed of frames whose contents have at most so many bytes. It takes no memory.
    pub fn new(alloc: Global, limit: u64) -> Feed
        ensures { result ≡ new_feed limit }
    {
        Feed {
            alloc,
            limit,
            bytes: Vec::new(alloc),
            start: 0,
            given: 0,
        }
    }

    /// How many bytes were given, or `u64::MAX` where that number is greater, in constant time.
    pub fn given(&self) -> u64
        ensures { result ≡ self.now.given }
    {
        self.given
    }

    /// Whether all that was pushed was given, in constant time.
    pub fn is_empty(&self) -> bool
        ensures { IsTrue result ↔ (self.now.rest ≡ []) }
    {
        self.start == self.bytes.len()
    }

    /// Adds a piece at the end of the rest, in amortised time linear in the piece. A refusal leaves the feed.
    pub fn push(&mut self, piece: &[u8]) -> Result<(), NoMemory>
        ensures ok { OnOk result (self.new ≡ pushed self.old piece.now) }
        ensures err { OnErr result (self.new ≡ self.old) }
    {
        self.settle();
        match self.bytes.extend_from_slice(piece) {
            Ok(()) => Ok(()),
            Err(_) => Err(NoMemory),
        }
    }

    /// The next message, taken off the rest, in time linear in its frame; or why there is none, in constant time
    /// where the frame is not in. A refusal leaves the feed, and so do More and Bad: after Bad each call answers it.
    #[inline(never)]
    pub fn next(&mut self) -> Result<Next, NoMemory>
        ensures answer { IfOk result (HasAnswered self.old self.new) }
        ensures err { OnErr result (self.new ≡ self.old) }
        ensures fits { length self.old.rest < 2 ^ 64 }
    {
        let _held = self.bytes.len();
        let bytes = &self.bytes[self.start..];
        known_bytes(bytes);
        let (format, len) = match read_head(self.limit, bytes) {
            Head::Partial => return Ok(Next::More),
            Head::Refused => return Ok(Next::Bad { at: self.given }),
            Head::Whole { format, len } => (format, len),
        };
        match message(self.alloc, format, &bytes[HEAD..len]) {
            Ok(msg) => {
                self.start += len;
                self.given = self.given.saturating_add(len as u64);
                Ok(Next::Message(msg))
            }
            Err(Fault::Bad) => Ok(Next::Bad { at: self.given }),
            Err(Fault::NoMemory) => Err(NoMemory),
        }
    }

    /// The message of which the feed holds just the frame, in time linear in it.
    pub fn only_message(mut self) -> Result<Msg, NoMemory>
        requires { (m : Msg) × HoldsJust self m }
        ensures { (m : Msg) → HoldsJust self m → IfOk result (λ n. n ≡ m) }
    {
        messages_are_never_bad();
        no_frame_begins_another();
        match self.next()? {
            Next::Message(msg) => Ok(msg),
            _ => unreachable!(),
        }
    }

    // Forgets the bytes that were given, where they are at least as many as the others: so each byte given pays for
    // at most one that is moved.
    fn settle(&mut self)
        ensures { self.new ≡ self.old }
    {
        if self.start >= self.bytes.len() - self.start {
            drop_front(&mut self.bytes, self.start);
            self.start = 0;
        }
    }
}

// Each is below 256.
fn known_bytes(bytes: &[u8])
    ensures { AreBytes bytes.now }
{
    let _ = bytes.len();
}
