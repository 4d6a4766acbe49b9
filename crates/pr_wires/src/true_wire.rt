// A wire in memory that never fails.
ghost use Rattle.std.specs.Prelude.{◌≡◌, ◌≤◌, [], drop, length, None, Some, true};

use crate::Wire;
use crate::behind::forget;
use arrayvec::ArrayVec;
use pr_ports::Failed;
use std::marker::Model;

/// Gives the bytes that were put, in order. It never fails and never ends, and takes no memory.
#[derive(Drop)]
pub struct TrueWire {
    bytes: ArrayVec<u8, 4096>,
    at: usize,
}

impl Model for TrueWire {
    ghost use Rattle.std.specs.Prelude.{◌≤◌, List, ℕ, drop, length};

    ghost Value = { List ℕ };

    ghost view = { λ w. drop w.at w.bytes.items };

    ghost invariant = { λ w. w.at ≤ length w.bytes.items };
}

impl TrueWire {
    pub(crate) fn new() -> TrueWire
        ensures { result ≡ [] }
    {
        TrueWire {
            bytes: ArrayVec::new(),
            at: 0,
        }
    }
}

impl Wire for TrueWire {
    ghost state = { λ w. record { faults = 0; ends = 0; under = length w; given = None; taken = None; held = Some w; sound = true } };

    fn put(&mut self, piece: &[u8]) -> Result<usize, Failed> {
        forget(&mut self.bytes, self.at);
        self.at = 0;
        let _ = self.bytes.try_extend_from_slice(piece);
        Ok(piece.len())
    }

    fn take(&mut self, buf: &mut [u8]) -> Result<usize, Failed> {
        let len = buf.len();
        buf.copy_from_slice(&self.bytes.as_slice()[self.at..self.at + len]);
        self.at += len;
        Ok(len)
    }
}
