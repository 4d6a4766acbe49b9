// A source over a reader of std.
ghost use Rattle.pr_ports.specs.Faults.{GivesAtMost, HasRisen};
ghost use Rattle.std.specs.Io.KnownBytes.{ReadConsumes};
ghost use Rattle.std.specs.Prelude.{◌≡◌, ◌≤◌, OnErr, OnOk, length};

use crate::{Failed, Source};
use std::io::Read;
use std::marker::Model;

/// Reads from a reader of std, and counts its errors. What a file or a terminal has left it does not tell.
#[derive(Drop)]
pub struct ReaderSource<R: Read> {
    inner: R,
    faults: u64,
}

impl<R: Read> Model for ReaderSource<R> {
    ghost use Rattle.pr_ports.specs.Adapted.{Adapted};

    ghost Value = { Adapted R };

    ghost view = { λ s. record { inner = s.inner; faults = s.faults } };
}

impl<R: Read> ReaderSource<R> {
    pub fn new(inner: R) -> Self
        ensures inner { result.inner ≡ inner }
        ensures faults { result.faults ≡ 0 }
    {
        ReaderSource { inner, faults: 0 }
    }
}

impl<R: Read> Source for ReaderSource<R> {
    ghost left = { λ s. R.remaining s.inner };

    ghost faults = { λ s. s.faults };

    fn read(&mut self, buf: &mut [u8]) -> Result<usize, Failed>
        ensures count { GivesAtMost result (length buf.old) }
        ensures bytes { ReadConsumes (R.remaining self.old.inner) (R.remaining self.new.inner) result buf.new }
        ensures rises { self.old.faults ≤ self.new.faults }
        ensures failed { OnErr result (HasRisen self.old.faults self.new.faults) }
        ensures quiet { OnOk result (self.new.faults ≡ self.old.faults) }
    {
        match self.inner.read(buf) {
            Ok(count) => Ok(count),
            Err(_) => {
                self.faults = self.faults.saturating_add(1);
                Err(Failed)
            }
        }
    }
}
