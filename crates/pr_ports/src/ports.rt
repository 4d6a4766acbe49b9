// What a source and a sink promise.
ghost use Rattle.std.specs.Prelude.{◌≡◌, ◌<◌, ◌≤◌, ℕ, List, Option, length, OnErr, Ok};
ghost use Rattle.std.specs.Io.{WritesAtMost};
ghost use Rattle.std.specs.Io.KnownBytes.{ReadConsumes, WriteAppends};
ghost use Rattle.pr_ports.specs.Faults.{HasRisen, GivesAtMost};

/// A call failed, and the object's count of faults rose.
#[derive(Clone, Copy, Debug, PartialEq, Eq)]
pub struct Failed;

/// Gives bytes, in whatever pieces.
pub trait Source {
    /// The bytes still to come, where the object tells them.
    ghost left: { Self → Option (List ℕ) };

    /// How often it has failed; the count never falls.
    ghost faults: { Self → ℕ };

    /// Puts bytes into the front of the buffer and answers how many; 0 for a nonempty buffer is the end of input.
    fn read(&mut self, buf: &mut [u8]) -> Result<usize, Failed>
        ensures count { GivesAtMost result (length buf.old) }
        ensures bytes { ReadConsumes (left self.old) (left self.new) result buf.new }
        ensures rises { faults self.old ≤ faults self.new }
        ensures failed { OnErr result (HasRisen (faults self.old) (faults self.new)) };
}

/// Takes bytes, in whatever pieces.
pub trait Sink {
    /// The bytes taken so far, where the object tells them.
    ghost text: { Self → Option (List ℕ) };

    /// How often it has failed; the count never falls.
    ghost faults: { Self → ℕ };

    /// Takes bytes from the front of the piece and answers how many.
    fn write(&mut self, piece: &[u8]) -> Result<usize, Failed>
        ensures count { WritesAtMost result piece.now }
        ensures bytes { WriteAppends (text self.old) (text self.new) result piece.now }
        ensures rises { faults self.old ≤ faults self.new }
        ensures failed { OnErr result (HasRisen (faults self.old) (faults self.new)) }
        ensures none_taken { result ≡ Ok 0 → 0 < length piece.now → HasRisen (faults self.old) (faults self.new) };
}
