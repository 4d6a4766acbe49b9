// A text is read.

ghost use Rattle.pr_draw.specs.Drawn.{AreBytes};

use pr_ports::Source;
use pr_stamps::{Bytes, Seq};
use pr_top::{CheckError, MOST_BYTES};
use std::alloc::Global;

// How many bytes a read asks for.
const PIECE: usize = 4096;

/// All bytes of a source, of which there are at most 67,108,864. At most a piece more than that is read.
pub fn read_bytes<S: Source>(alloc: Global, source: &mut S) -> Result<Bytes, CheckError>
    ensures { AreBytes (S.left source.old) (S.left source.new) (S.faults source.old) (S.faults source.new) result }
{
    let mut text = Seq::new(alloc);
    let mut room = MOST_BYTES;
    let mut buf = [0u8; PIECE];
    loop {
        let len = match source.read(&mut buf) {
            Ok(len) => len,
            Err(_) => return Err(CheckError::Failed),
        };
        if len == 0 {
            return Ok(text);
        }
        if len > room {
            return Err(CheckError::TooLarge);
        }
        if text.extend(&buf[..len]).is_err() {
            return Err(CheckError::NoMemory);
        }
        room -= len;
    }
}
