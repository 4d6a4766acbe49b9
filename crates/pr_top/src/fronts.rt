// A script that a byte 0 ends.
ghost use Rattle.pr_script.specs.Answers.{Holds};
ghost use Rattle.pr_top.specs.Fronts.{IsCutAt, IsEndedSo, IsFrontReadSo};
ghost use Rattle.std.specs.List.{position};
ghost use Rattle.std.specs.Prelude.{◌≡◌, ◌==◌, ◌<◌, ◌≤◌, IfSome, List, length, option_map, ℕ};

use crate::reading::{PIECE, ReadError, finish, take};
use crate::size::Size;
use pr_ports::Source;
use pr_script::{Bytes, Reader, Script};
use pr_stamps::Seq;
use std::alloc::Global;

/// A script, and the bytes that were read behind the byte 0 that ended it, at most 4,095.
#[derive(Drop)]
pub struct Front {
    pub script: Script,
    pub ahead: Bytes,
}

/// Reads a script up to the first byte 0, or to the source's end, piece by piece, in time linear in its bytes. At most a
/// piece more is read.
pub fn read_front<S: Source>(alloc: Global, source: &mut S) -> Result<Front, ReadError>
    ensures so { IsFrontReadSo (S.left source.old) (S.left source.new) (S.faults source.old) (S.faults source.new) result }
    ensures rises { S.faults source.old ≤ S.faults source.new }
{
    let mut reader = Reader::new(alloc);
    let mut size = Size::new();
    let mut buf = [0u8; PIECE];
    loop {
        let len = match source.read(&mut buf) {
            Ok(len) => len,
            Err(_) => return Err(ReadError::Failed),
        };
        let (front, behind) = cut(&buf[..len]);
        take(&mut reader, &mut size, front)?;
        match behind {
            Some(ahead) => return ended(alloc, reader, ahead),
            None if len == 0 => return ended(alloc, reader, &[]),
            None => {}
        }
    }
}

// Cuts a piece at its first byte 0, where it has one.
fn cut(piece: &[u8]) -> (&[u8], Option<&[u8]>)
    ensures { IsCutAt piece.now result.0.now (option_map (λ b. b.now) result.1) }
{
    match zero_in(piece) {
        Some(at) => (&piece[..at], Some(&piece[at + 1..])),
        None => (piece, None),
    }
}

fn zero_in(piece: &[u8]) -> Option<usize>
    ensures place { result ≡ position (λ b. b == 0) piece.now }
    ensures within { IfSome result (λ at. at < length piece.now) }
{
    piece.iter().position(|byte| *byte == 0)
}

// The script of all bytes that the reader was given, and those that were read behind it.
fn ended(alloc: Global, reader: Reader, ahead: &[u8]) -> Result<Front, ReadError>
    ensures { (bytes : List ℕ) → Holds reader bytes → IsEndedSo bytes ahead.now result }
{
    let script = finish(reader)?;
    match Seq::copied(alloc, ahead) {
        Ok(ahead) => Ok(Front { script, ahead }),
        Err(_) => Err(ReadError::NoMemory),
    }
}
