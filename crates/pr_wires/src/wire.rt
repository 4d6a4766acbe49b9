// A connection.
ghost use Rattle.pr_wires.specs.Calls.{HasPut, HasTaken, WireState};
ghost use Rattle.std.specs.Prelude.{◌≤◌, ◌+◌, length};

use pr_ports::Failed;

/// The most bytes that are under way on a wire: put and not yet taken.
pub const UNDER: usize = 4096;

/// A connection whose two ends are held by one object. Its counts never fall. What it tells of its bytes is optional;
/// a wire over a socket tells nothing.
pub trait Wire {
    /// What it is at some moment. Where it is sound, it never fails, never ends and gives what was put.
    ghost state: { Self → WireState };

    /// Puts bytes from the front of the piece into the wire, and answers how many; 0 for a nonempty piece says that
    /// the wire has ended.
    fn put(&mut self, piece: &[u8]) -> Result<usize, Failed>
        requires { (state self.old).under + length piece.now ≤ 4096 }
        ensures { HasPut (state self.old) (state self.new) piece.now result };

    /// Takes bytes off the wire into the front of the buffer, and answers how many; 0 for a nonempty buffer says that
    /// the wire has ended.
    fn take(&mut self, buf: &mut [u8]) -> Result<usize, Failed>
        requires { length buf.old ≤ (state self.old).under }
        ensures { HasTaken (state self.old) (state self.new) (length buf.old) buf.new result };
}
