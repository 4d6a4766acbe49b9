// The asks of an input.
ghost use Rattle.pr_serve.specs.Asking.{IsAskBytes, IsNextAsk, IsReadAsk};
ghost use Rattle.pr_serve.specs.Inputs.{input};
ghost use Rattle.std.specs.Prelude.{◌≤◌};

use crate::ask::{Ask, MARK};
use crate::coming::Coming;
use crate::stop::Stop;
use crate::window::Window;
use pr_inval::Bytes;
use pr_ports::Source;
use pr_stamps::Seq;
use pr_wire::{Cursor, Fault};
use std::alloc::Global;

/// Takes the next ask off an input, or None at its end, in time linear in its spelling. It takes memory for the bytes
/// that came, and never for a count that they give.
pub fn next_ask<S: Source>(
    alloc: Global,
    source: &mut S,
    window: &mut Window,
) -> Result<Option<Ask>, Stop>
    ensures so { IsNextAsk (input (S.left source.old) (S.faults source.old) window.old) (input (S.left source.new) (S.faults source.new) window.new) result }
    ensures most { window.new.taken ≤ 67108864 }
{
    let first = match window.next(source)? {
        Some(first) => first,
        None => return Ok(None),
    };
    if first != MARK {
        return Err(Stop::Bad);
    }
    let bytes = ask_bytes(alloc, source, window)?;
    read_ask(alloc, bytes.as_slice())
}

// The ask that the bytes spell.
fn read_ask(alloc: Global, bytes: &[u8]) -> Result<Option<Ask>, Stop>
    ensures { IsReadAsk bytes.now result }
{
    let mut cursor = Cursor { rest: bytes };
    match Ask::read(alloc, &mut cursor) {
        Ok(ask) => Ok(Some(ask)),
        Err(Fault::Bad) => Err(Stop::Bad),
        Err(Fault::NoMemory) => Err(Stop::NoMemory),
    }
}

// The bytes of the ask whose mark was taken, up to where its counts and lengths end it.
fn ask_bytes<S: Source>(alloc: Global, source: &mut S, window: &mut Window) -> Result<Bytes, Stop>
    requires { window.old.taken ≤ 67108864 }
    ensures so { IsAskBytes (input (S.left source.old) (S.faults source.old) window.old) (input (S.left source.new) (S.faults source.new) window.new) result }
    ensures most { window.new.taken ≤ 67108864 }
{
    let mut bytes = Seq::new(alloc);
    let mut coming = Coming::Front { left: 5 };
    let mut byte = MARK;
    loop {
        bytes.push(byte)?;
        coming = coming.after(byte);
        if coming.is_nothing() {
            return Ok(bytes);
        }
        byte = match window.next(source)? {
            Some(next) => next,
            None => return Err(Stop::Bad),
        };
    }
}
