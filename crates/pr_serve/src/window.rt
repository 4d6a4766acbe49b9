// The bytes of an input that were read and not yet taken.
ghost use Rattle.pr_serve.specs.Inputs.{IsFilled, IsNextByte, input};
ghost use Rattle.std.specs.Prelude.{◌≡◌, ◌≤◌, ℕ, List, [], Option, length};

use crate::stop::Stop;
use pr_ports::Source;
use std::marker::Model;

/// The most bytes that are taken off one input.
pub const MOST_BYTES: u64 = 67_108_864;

// How many bytes a read asks for.
const PIECE: usize = 4096;

/// The bytes of an input that were read and not yet taken, at most 4,096 of them, and how many were taken.
#[derive(Drop)]
pub struct Window {
    bytes: [u8; PIECE],
    at: usize,
    end: usize,
    taken: u64,
}

impl Model for Window {
    ghost use Rattle.pr_serve.specs.Inputs.{Held};
    ghost use Rattle.std.specs.Prelude.{◌≤◌, drop, take};

    ghost Value = { Held };

    ghost view = { λ w. record { bytes = drop w.at (take w.end w.bytes); taken = w.taken } };

    ghost invariant = { λ w. (w.at ≤ w.end) × (w.end ≤ 4096) × (w.taken ≤ 67108864) };
}

impl Window {
    /// A window over an input of which these bytes, at most 4,096, were read ahead.
    pub fn new(ahead: &[u8]) -> Window
        requires { length ahead.now ≤ 4096 }
        ensures { result ≡ record { bytes = ahead.now; taken = 0 } }
    {
        let mut bytes = [0; PIECE];
        bytes[..ahead.len()].copy_from_slice(ahead);
        Window {
            bytes,
            at: 0,
            end: ahead.len(),
            taken: 0,
        }
    }

    /// How many bytes were taken.
    pub fn taken(&self) -> u64
        ensures value { result ≡ self.now.taken }
        ensures most { result ≤ 67108864 }
    {
        self.taken
    }

    /// Takes the next byte, or None at the input's end. A read is made where nothing is held.
    pub fn next<S: Source>(&mut self, source: &mut S) -> Result<Option<u8>, Stop>
        ensures so { IsNextByte (input (S.left source.old) (S.faults source.old) self.old) (input (S.left source.new) (S.faults source.new) self.new) result }
        ensures most { self.new.taken ≤ 67108864 }
    {
        if self.at < self.end {
            return self.take();
        }
        if !self.fill(source)? {
            return Ok(None);
        }
        self.take()
    }

    // Takes a byte that is held.
    fn take(&mut self) -> Result<Option<u8>, Stop>
        requires { 1 ≤ length self.old.bytes }
        ensures so { (left : Option (List ℕ)) (faults : ℕ) → IsNextByte (input left faults self.old) (input left faults self.new) result }
        ensures most { self.new.taken ≤ 67108864 }
    {
        if self.taken == MOST_BYTES {
            return Err(Stop::TooLarge);
        }
        let byte = self.bytes[self.at];
        self.at += 1;
        self.taken += 1;
        Ok(Some(byte))
    }

    // Reads on where nothing is held; whether something is held then.
    fn fill<S: Source>(&mut self, source: &mut S) -> Result<bool, Stop>
        requires { self.old.bytes ≡ [] }
        ensures so { IsFilled (input (S.left source.old) (S.faults source.old) self.old) (input (S.left source.new) (S.faults source.new) self.new) result }
        ensures most { self.new.taken ≤ 67108864 }
    {
        self.at = 0;
        self.end = 0;
        match source.read(&mut self.bytes) {
            Ok(len) => {
                self.end = len;
                Ok(len > 0)
            }
            Err(_) => Err(Stop::Failed),
        }
    }
}
