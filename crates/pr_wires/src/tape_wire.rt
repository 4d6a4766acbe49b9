// A wire that keeps what went over it.
ghost use Rattle.pr_wires.specs.Calls.{HasPut, HasTaken};
ghost use Rattle.pr_wires.specs.Made.{IsPlayed, IsTaped, new_tape, state_of};
ghost use Rattle.std.specs.Prelude.{◌≡◌, ◌≤◌, ◌+◌, length, take, vec_capacity};

use crate::Wire;
use pr_ports::Failed;
use std::marker::Model;

/// A wire for tests: it keeps the bytes put, up to its room, and fails past that. It never ends, and takes no memory.
#[derive(Drop)]
pub struct TapeWire {
    bytes: Vec<u8>,
    at: usize,
    room: usize,
    faults: u64,
}

impl Model for TapeWire {
    ghost use Rattle.std.specs.Prelude.{◌≤◌, length, vec_capacity};
    ghost use Rattle.pr_wires.specs.Made.{Tape};

    ghost Value = { Tape };

    ghost view = { λ w. record { given = w.bytes.items; at = w.at; room = w.room; faults = w.faults } };

    ghost invariant = { λ w. (w.at ≤ length w.bytes.items) × (length w.bytes.items ≤ w.room) × (w.room ≤ vec_capacity w.bytes) };
}

impl TapeWire {
    // A tape in the memory of this vector.
    pub(crate) fn over(mut bytes: Vec<u8>, room: usize) -> TapeWire
        requires { room ≤ vec_capacity bytes }
        ensures { result ≡ new_tape room }
    {
        bytes.clear();
        TapeWire {
            bytes,
            at: 0,
            room,
            faults: 0,
        }
    }

    /// The bytes taken.
    pub fn taken(&self) -> &[u8]
        ensures { result.now ≡ take self.now.at self.now.given }
    {
        &self.bytes[..self.at]
    }
}

impl Wire for TapeWire {
    ghost state = { state_of };

    fn put(&mut self, piece: &[u8]) -> Result<usize, Failed>
        requires { (state_of self.old).under + length piece.now ≤ 4096 }
        ensures put { HasPut (state_of self.old) (state_of self.new) piece.now result }
        ensures taped { IsTaped self.old self.new piece.now result }
    {
        if self.room - self.bytes.len() < piece.len() {
            self.faults = self.faults.saturating_add(1);
            return Err(Failed);
        }
        let _ = self.bytes.extend_from_slice(piece);
        Ok(piece.len())
    }

    fn take(&mut self, buf: &mut [u8]) -> Result<usize, Failed>
        requires { length buf.old ≤ (state_of self.old).under }
        ensures taken { HasTaken (state_of self.old) (state_of self.new) (length buf.old) buf.new result }
        ensures played { IsPlayed self.old self.new (length buf.old) result }
    {
        let len = buf.len();
        buf.copy_from_slice(&self.bytes[self.at..self.at + len]);
        self.at += len;
        Ok(len)
    }
}
