// The kinds of message.
ghost use Rattle.pr_wire.specs.Reading.{Gives, body_at, checkpoint_at, given, header_at, imprecise_at, is_number, message_at, message_of, precise_at, whole, write_at};
ghost use Rattle.std.specs.Prelude.{◌≡◌, ◌==◌, List, length};

use crate::fault::Fault;
use crate::format::Format;
use crate::reading::Cursor;
use crate::reading::lists::Bounds;
use crate::reading::stamps::is_between;
use crate::reading::vectors::is_le;
use pr_inval::{Kind, Msg, WriteRec};
use pr_stamps::{MAX, Seq};
use pr_vectors::{PackedVector, Vector};
use std::alloc::Global;

// Whether it can be a time or a message number.
fn is_number(number: u64) -> bool
    ensures { result ≡ is_number number }
{
    1 <= number && number <= MAX
}

// What stands before the fields of a message's kind.
#[derive(Clone, Copy)]
struct Header {
    time: u64,
    stream: u32,
    number: u64,
}

impl Header {
    // The message of this header and kind.
    #[inline]
    fn with(&self, kind: Kind) -> Msg
        ensures { result ≡ message_of self.now kind }
    {
        Msg {
            time: self.time,
            stream: self.stream,
            number: self.number,
            kind,
        }
    }
}

/// The message of these bytes, which are a frame of the format without its head of 9 bytes, in time linear in them. Bad
/// says that they are the content of no message in the format.
#[tactic(auto, unfolding(crate::specs::Reading::message_at, crate::specs::Reading::content_at, crate::specs::Reading::kind_at, crate::specs::Reading::header_at, crate::specs::Reading::whole))]
pub fn message(alloc: Global, format: Format, bytes: &[u8]) -> Result<Msg, Fault>
    ensures { Gives (λ x. x) result (message_at format bytes.now) }
{
    let mut cursor = Cursor { rest: bytes };
    let kind = cursor.byte()?;
    let header = cursor.header()?;
    match kind {
        1 => cursor.precise(alloc, format, &header),
        2 => cursor.imprecise(alloc, format, &header),
        3 => cursor.checkpoint(alloc, format, &header),
        4 => cursor.body(alloc, &header),
        _ => Err(Fault::Bad),
    }
}

// A message of each kind is read in a call of its own, which makes it where it is answered.
impl<'a> Cursor<'a> {
    #[tactic(auto, unfolding(crate::specs::Reading::header_at))]
    fn header(&mut self) -> Result<Header, Fault>
        ensures { Gives (λ x. (x, self.new.rest.now)) result (header_at self.old.rest.now) }
    {
        let time = self.eight()?;
        let stream = self.four()?;
        let number = self.eight()?;
        if !(is_number(time) && is_number(number)) {
            return Err(Fault::Bad);
        }
        Ok(Header {
            time,
            stream,
            number,
        })
    }

    // Bad says that bytes are left.
    fn expect_end(&self) -> Result<(), Fault>
        ensures { Gives (λ _. self.now.rest.now) result (given (length self.now.rest.now == 0) self.now.rest.now) }
    {
        if self.rest.is_empty() {
            Ok(())
        } else {
            Err(Fault::Bad)
        }
    }

    #[tactic(auto, unfolding(crate::specs::Reading::write_at))]
    fn write(&mut self, format: Format) -> Result<WriteRec, Fault>
        ensures { Gives (λ x. (x, self.new.rest.now)) result (write_at format self.old.rest.now) }
    {
        let name = self.name()?;
        let mark = self.mark()?;
        let gone = self.gone(format)?;
        Ok(WriteRec {
            name,
            stamp: mark.stamp,
            prev: mark.prev,
            gone,
        })
    }

    #[tactic(auto, unfolding(crate::specs::Reading::precise_at, crate::specs::Reading::vector_at, crate::specs::Reading::whole))]
    #[inline(never)]
    fn precise(&mut self, alloc: Global, format: Format, header: &Header) -> Result<Msg, Fault>
        ensures { Gives (λ x. x) result (whole header.now (precise_at format self.old.rest.now)) }
    {
        let mut vector = Vector::zero();
        self.rise(&mut vector)?;
        let from = PackedVector::of(alloc, &vector)?;
        self.end(format, &mut vector)?;
        let write = self.write(format)?;
        if !is_between(&from, &vector, &write.stamp) {
            return Err(Fault::Bad);
        }
        self.expect_end()?;
        let to = PackedVector::of(alloc, &vector)?;
        Ok(header.with(Kind::Precise { from, to, write }))
    }

    #[tactic(auto, unfolding(crate::specs::Reading::imprecise_at, crate::specs::Reading::vector_at, crate::specs::Reading::whole))]
    #[inline(never)]
    fn imprecise(&mut self, alloc: Global, format: Format, header: &Header) -> Result<Msg, Fault>
        ensures { Gives (λ x. x) result (whole header.now (imprecise_at format self.old.rest.now)) }
    {
        let mut vector = Vector::zero();
        self.rise(&mut vector)?;
        let from = PackedVector::of(alloc, &vector)?;
        self.end(format, &mut vector)?;
        let target = self.target(alloc)?;
        self.expect_end()?;
        let to = PackedVector::of(alloc, &vector)?;
        Ok(header.with(Kind::Imprecise { from, to, target }))
    }

    #[tactic(auto, unfolding(crate::specs::Reading::checkpoint_at, crate::specs::Reading::whole))]
    #[inline(never)]
    fn checkpoint(&mut self, alloc: Global, format: Format, header: &Header) -> Result<Msg, Fault>
        ensures { Gives (λ x. x) result (whole header.now (checkpoint_at format self.old.rest.now)) }
    {
        let to = self.vector()?;
        let target = self.target(alloc)?;
        let floor = self.vector()?;
        if !is_le(&floor, &to) {
            return Err(Fault::Bad);
        }
        let floor = PackedVector::of(alloc, &floor)?;
        let bounds = Bounds {
            format,
            to: &to,
            target: &target,
            floor: &floor,
        };
        let rows = self.rows(alloc, &bounds)?;
        self.expect_end()?;
        let to = PackedVector::of(alloc, &to)?;
        Ok(header.with(Kind::Checkpoint {
            to,
            target,
            floor,
            rows,
        }))
    }

    #[tactic(auto, unfolding(crate::specs::Reading::body_at, crate::specs::Reading::whole))]
    #[inline(never)]
    fn body(&mut self, alloc: Global, header: &Header) -> Result<Msg, Fault>
        ensures { Gives (λ x. x) result (whole header.now (body_at self.old.rest.now)) }
    {
        let name = self.name()?;
        let stamp = self.stamp()?;
        let len = self.eight()?;
        if len > 65_536 {
            return Err(Fault::Bad);
        }
        let text = self.run(len as usize)?;
        self.expect_end()?;
        let bytes = Seq::copied(alloc, text)?;
        Ok(header.with(Kind::Body { name, stamp, bytes }))
    }
}
