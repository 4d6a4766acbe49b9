// Quoted texts.
ghost use Rattle.pr_script.specs.Fields.{Gives, value_of};
ghost use Rattle.pr_script.specs.Texts.{byte_at, escape_at, hex_value, is_bare, is_hex, last_text, text_at};
ghost use Rattle.std.specs.Prelude.{◌≡◌, ◌<◌, IfOk, IfSome, None, Ok, Some, if◌then◌else◌, length};

use crate::Bytes;
use crate::fields::{blank, unspaced};
use crate::refusal::Refusal;
use pr_stamps::{NoMemory, Seq};
use std::alloc::Global;

/// Whether the byte stands for itself in a text.
pub fn bare(b: u8) -> bool
    ensures { result ≡ is_bare b }
{
    b' ' <= b && b <= b'~' && b != b'"' && b != b'\\'
}

// The value of a digit.
fn hex(c: u8) -> Option<u8>
    ensures value { result ≡ if is_hex c then Some (hex_value c) else None }
    ensures below { IfSome result (λ v. v < 16) }
{
    match c {
        b'0'..=b'9' => Some(c - b'0'),
        b'a'..=b'f' => Some(c - b'a' + 10),
        _ => None,
    }
}

// The text up to its closing quote, and the bytes after that.
#[tactic(auto, unfolding(crate::specs::Texts::text_at))]
fn text(alloc: Global, bytes: &[u8]) -> Result<(Bytes, &[u8]), Refusal>
    ensures { Gives (λ x. (x.0, x.1.now)) result (text_at bytes.now) }
{
    let mut out = Seq::new(alloc);
    let mut rest = bytes;
    for _ in 0..bytes.len() {
        if rest.is_empty() {
            return Err(Refusal::Why(3));
        }
        if rest[0] == b'"' {
            return Ok((out, &rest[1..]));
        }
        let (b, more) = byte(rest)?;
        out.push(b)?;
        rest = more;
    }
    Err(Refusal::Why(3))
}

// The byte at the front of a text.
#[tactic(auto, unfolding(crate::specs::Texts::byte_at))]
fn byte(bytes: &[u8]) -> Result<(u8, &[u8]), Refusal>
    ensures gives { Gives (λ x. (x.0, x.1.now)) result (byte_at bytes.now) }
    ensures shorter { IfOk result (λ x. length x.1.now < length bytes.now) }
{
    match bytes {
        [b'\\', rest @ ..] => escape(rest),
        [b, rest @ ..] if bare(*b) => Ok((*b, rest)),
        _ => Err(Refusal::Why(3)),
    }
}

fn escape(bytes: &[u8]) -> Result<(u8, &[u8]), Refusal>
    ensures gives { Gives (λ x. (x.0, x.1.now)) result (escape_at bytes.now) }
    ensures shorter { IfOk result (λ x. length x.1.now < length bytes.now) }
{
    match bytes {
        [c, d, rest @ ..] => {
            let Some(high) = hex(*c) else {
                return Err(Refusal::Why(3));
            };
            let Some(low) = hex(*d) else {
                return Err(Refusal::Why(3));
            };
            let byte = 16 * high + low;
            if bare(byte) {
                return Err(Refusal::Why(3));
            }
            Ok((byte, rest))
        }
        _ => Err(Refusal::Why(3)),
    }
}

/// The last field, which is a quoted text.
#[tactic(auto, unfolding(crate::specs::Texts::last_text))]
pub fn end_text(alloc: Global, bytes: &[u8]) -> Result<Bytes, Refusal>
    ensures { Gives (λ x. x) result (last_text bytes.now) }
{
    let rest = unspaced(bytes);
    match rest {
        [b'"', more @ ..] => {
            let (out, rest) = text(alloc, more)?;
            if !blank(rest) {
                return Err(Refusal::Why(3));
            }
            Ok(out)
        }
        _ => Err(Refusal::Why(3)),
    }
}

/// The text that the bytes quote, if they are a quoted text, in time linear in them.
pub fn read_text(alloc: Global, bytes: &[u8]) -> Result<Option<Bytes>, NoMemory>
    ensures { IfOk result (λ text. text ≡ value_of (last_text bytes.now)) }
{
    match end_text(alloc, bytes) {
        Ok(text) => Ok(Some(text)),
        Err(Refusal::Why(_)) => Ok(None),
        Err(Refusal::NoMemory) => Err(NoMemory),
    }
}

/// A copy of the bytes.
pub fn owned(alloc: Global, bytes: &[u8]) -> Result<Bytes, Refusal>
    ensures { Gives (λ x. x) result (Ok bytes.now) }
{
    Ok(Seq::copied(alloc, bytes)?)
}
