// A script is read.
ghost use Rattle.pr_script.specs.Answers.{Holds};
ghost use Rattle.pr_top.specs.Fronts.{IsTaken};
ghost use Rattle.pr_top.specs.Reading.{IsReadSo, IsFinished};
ghost use Rattle.pr_top.specs.Sizes.{IsSizeOf};
ghost use Rattle.std.specs.Prelude.{◌++◌, ◌<◌, ◌≤◌, List, OnOk, length, ℕ};

use crate::size::Size;
use pr_ports::Source;
use pr_script::{Reader, Script, ScriptFault};
use std::alloc::Global;

/// Why no script was read.
#[derive(Clone, Copy)]
pub enum ReadError {
    Failed,
    TooLarge,
    Bad { line: u64, why: u8 },
    NoMemory,
}

/// How many bytes a read asks for.
pub const PIECE: usize = 4096;

/// Reads a script piece by piece, in time linear in its bytes. At most a piece more than the limit is read.
pub fn read_script<S: Source>(alloc: Global, source: &mut S) -> Result<Script, ReadError>
    ensures so { IsReadSo (S.left source.old) (S.left source.new) (S.faults source.old) (S.faults source.new) result }
    ensures rises { S.faults source.old ≤ S.faults source.new }
{
    let mut reader = Reader::new(alloc);
    let mut size = Size::new();
    let mut buf = [0u8; PIECE];
    loop {
        let len = match source.read(&mut buf) {
            Ok(len) => len,
            Err(_) => return Err(ReadError::Failed),
        };
        if len == 0 {
            return finish(reader);
        }
        take(&mut reader, &mut size, &buf[..len])?;
    }
}

/// Gives the reader a piece more, unless that is too large.
pub fn take(reader: &mut Reader, size: &mut Size, piece: &[u8]) -> Result<(), ReadError>
    requires bytes { size.old.bytes ≤ 4194304 }
    requires ends { size.old.ends ≤ 4194304 }
    ensures taken { (before : List ℕ) → Holds reader.old before → IsSizeOf size.old before → IsTaken reader.new size.new (before ++ piece.now) result }
    ensures more { OnOk result ((0 < length piece.now → size.old.bytes < size.new.bytes) × (size.new.bytes ≤ 4194304) × (size.new.ends ≤ 4194304)) }
{
    if piece.is_empty() {
        return Ok(());
    }
    let Some(now) = size.with(piece) else {
        return Err(ReadError::TooLarge);
    };
    if reader.push(piece).is_err() {
        return Err(ReadError::NoMemory);
    }
    *size = now;
    Ok(())
}

/// The script of all bytes that the reader was given.
pub fn finish(reader: Reader) -> Result<Script, ReadError>
    ensures { (bytes : List ℕ) → Holds reader bytes → IsFinished bytes result }
{
    match reader.finish() {
        Ok(script) => Ok(script),
        Err(ScriptFault::Bad { line, why }) => Err(ReadError::Bad { line, why }),
        Err(ScriptFault::NoMemory) => Err(ReadError::NoMemory),
    }
}
