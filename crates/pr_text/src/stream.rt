// The events of streams.
ghost use Rattle.pr_script.specs.Printing.{label_text};
ghost use Rattle.pr_text.specs.Lines.{cause_text, sentence};
ghost use Rattle.pr_text.specs.Texts.{vector_text};
ghost use Rattle.pr_script.specs.declared.kind.Kind.TheVariants as kinds;
ghost use Rattle.pr_story.specs.declared.event.Event.TheVariants as events;
ghost use Rattle.std.specs.Prelude.{◌≡◌, ◌++◌, ◌∷◌, OnOk, codes, decimal};

use crate::field::{push_at, push_word};
use crate::label::push_about;
use crate::message::{push_kind, start_of};
use crate::stamp::push_number;
use crate::stock::Stock;
use crate::vector::push_vector;
use pr_inval::Msg;
use pr_script::{Bytes, Decls, Kind};
use pr_stamps::NoMemory;
use pr_story::Cause;
use pr_vectors::{PackedVector, Vector};

/// The stream began, or began again.
pub fn push_attached(
    stock: &Stock,
    stream: u32,
    at: &PackedVector,
    text: &mut Bytes,
) -> Result<(), NoMemory>
    ensures { OnOk result (text.new ≡ text.old ++ sentence stock.now.list 0 (events.Attached stream at.now)) }
{
    push_stream(b"attach ", stock.decls(), stream, text)?;
    push_at(b" at ", stock, at, text)
}

/// The source sent a message.
pub fn push_sent(stock: &Stock, msg: &Msg, text: &mut Bytes) -> Result<(), NoMemory>
    ensures { OnOk result (text.new ≡ text.old ++ sentence stock.now.list 0 (events.Sent msg.now)) }
{
    push_message(b"send ", stock.decls(), msg, text)?;
    push_kind(stock, &msg.kind, text)
}

/// The source had nothing to send.
pub fn push_idle(decls: &Decls, stream: u32, text: &mut Bytes) -> Result<(), NoMemory>
    ensures { OnOk result (text.new ≡ text.old ++ sentence decls.now.list 0 (events.Idle stream)) }
{
    push_stream(b"idle ", decls, stream, text)
}

/// The stream lies behind the source's cut.
pub fn push_stale(
    stock: &Stock,
    stream: u32,
    cut: &PackedVector,
    text: &mut Bytes,
) -> Result<(), NoMemory>
    ensures { OnOk result (text.new ≡ text.old ++ sentence stock.now.list 0 (events.Stale stream cut.now)) }
{
    push_stream(b"stale ", stock.decls(), stream, text)?;
    push_at(b" cut ", stock, cut, text)
}

/// The destination took a message.
pub fn push_accepted(
    stock: &Stock,
    msg: &Msg,
    at: &PackedVector,
    text: &mut Bytes,
) -> Result<(), NoMemory>
    ensures { OnOk result (text.new ≡ text.old ++ sentence stock.now.list 0 (events.Accepted msg.now at.now)) }
{
    push_message(b"accept ", stock.decls(), msg, text)?;
    push_at(b" at ", stock, at, text)
}

/// The destination lacks what comes before a message.
pub fn push_gapped(
    stock: &Stock,
    msg: &Msg,
    has: &PackedVector,
    text: &mut Bytes,
) -> Result<(), NoMemory>
    ensures { OnOk result (text.new ≡ text.old ++ sentence stock.now.list 0 (events.Gapped msg.now has.now)) }
{
    push_message(b"gap ", stock.decls(), msg, text)?;
    push_needs(stock.decls(), &start_of(&msg.kind), text)?;
    push_at(b" has ", stock, has, text)
}

fn push_needs(decls: &Decls, start: &Vector, text: &mut Bytes) -> Result<(), NoMemory>
    ensures { OnOk result (text.new ≡ text.old ++ 32 ∷ (codes "needs" ++ 32 ∷ vector_text decls.now.list start.now)) }
{
    text.extend(b" needs ")?;
    push_vector(decls, start, text)
}

/// No message of this number was sent.
pub fn push_missing(
    decls: &Decls,
    stream: u32,
    number: u64,
    text: &mut Bytes,
) -> Result<(), NoMemory>
    ensures { OnOk result (text.new ≡ text.old ++ sentence decls.now.list 0 (events.Missing stream number)) }
{
    push_stream(b"missing ", decls, stream, text)?;
    push_number(number, text)
}

/// A flow ended before its turns were done.
pub fn push_down(
    decls: &Decls,
    stream: u32,
    cause: &Cause,
    text: &mut Bytes,
) -> Result<(), NoMemory>
    ensures { OnOk result (text.new ≡ text.old ++ sentence decls.now.list 0 (events.Down stream cause.now)) }
{
    push_stream(b"down ", decls, stream, text)?;
    push_cause(cause, text)
}

// Adds the first word, with its blank, and the stream.
fn push_stream(word: &[u8], decls: &Decls, stream: u32, text: &mut Bytes) -> Result<(), NoMemory>
    ensures { OnOk result (text.new ≡ text.old ++ (word.now ++ label_text kinds.Stream decls.now.list stream)) }
{
    push_about(word, decls, Kind::Stream, stream, text)
}

// Adds the first word, with its blank, the message's stream and its number.
fn push_message(word: &[u8], decls: &Decls, msg: &Msg, text: &mut Bytes) -> Result<(), NoMemory>
    ensures { OnOk result (text.new ≡ text.old ++ (word.now ++ (label_text kinds.Stream decls.now.list msg.now.stream ++ 32 ∷ decimal msg.now.number))) }
{
    push_stream(word, decls, msg.stream, text)?;
    push_number(msg.number, text)
}

fn push_cause(cause: &Cause, text: &mut Bytes) -> Result<(), NoMemory>
    ensures { OnOk result (text.new ≡ text.old ++ 32 ∷ cause_text cause.now) }
{
    match cause {
        Cause::Failed => push_word(b"failed", text),
        Cause::Ended => push_word(b"ended", text),
        Cause::Gap => push_word(b"gap", text),
    }
}
