// Bytes and frames that are written.
ghost use Rattle.pr_inval.specs.Messages.{IsMessage};
ghost use Rattle.pr_serve.specs.Sinks.{IsWritten, sink};
ghost use Rattle.pr_wire.specs.Spelling.{spelling};
ghost use Rattle.pr_wire.specs.declared.format.Format.{Format};
ghost use Rattle.std.specs.Prelude.{◌≡◌};

use crate::serve_fault::ServeFault;
use pr_inval::Msg;
use pr_ports::Sink;
use pr_wire::Pieces;

// How many bytes of a frame are made at once.
const PIECE: usize = 4096;

/// Writes all the bytes, by as many calls as the sink asks for. Where the sink fails, it has taken their front.
pub fn write_all<K: Sink>(out: &mut K, bytes: &[u8]) -> Result<(), ServeFault>
    ensures { IsWritten (sink (K.text out.old) (K.faults out.old)) (sink (K.text out.new) (K.faults out.new)) bytes.now result }
{
    let mut at = 0;
    while at < bytes.len() {
        match out.write(&bytes[at..]) {
            Ok(0) => return Err(ServeFault::WriteFault),
            Ok(count) => at += count,
            Err(_) => return Err(ServeFault::WriteFault),
        }
    }
    Ok(())
}

/// Writes the frame of a message in format 2, in time linear in it and without taking memory.
pub fn write_frame<K: Sink>(msg: &Msg, out: &mut K) -> Result<(), ServeFault>
    requires { IsMessage msg.now }
    ensures { IsWritten (sink (K.text out.old) (K.faults out.old)) (sink (K.text out.new) (K.faults out.new)) (spelling Format.Two msg.now) result }
{
    let mut pieces = Pieces::new(msg);
    let mut piece = [0; PIECE];
    loop {
        let len = pieces.next(&mut piece);
        if len == 0 {
            return Ok(());
        }
        write_all(out, &piece[..len])?;
    }
}
