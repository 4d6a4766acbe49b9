// A sink over a writer of std.
ghost use Rattle.pr_ports.specs.Faults.{HasRisen};
ghost use Rattle.std.specs.Io.{WritesAtMost};
ghost use Rattle.std.specs.Io.KnownBytes.{WriteAppends};
ghost use Rattle.std.specs.Prelude.{◌≡◌, ◌≤◌, ◌<◌, IfOk, Ok, OnErr, length};

use crate::{Failed, Sink};
use std::io::Write;
use std::marker::Model;

/// Writes to a writer of std, and counts its errors and the calls that took nothing. What a file or a terminal holds
/// it does not tell.
#[derive(Drop)]
pub struct WriterSink<W: Write> {
    inner: W,
    faults: u64,
}

impl<W: Write> Model for WriterSink<W> {
    ghost use Rattle.pr_ports.specs.Adapted.{Adapted};

    ghost Value = { Adapted W };

    ghost view = { λ s. record { inner = s.inner; faults = s.faults } };
}

impl<W: Write> WriterSink<W> {
    pub fn new(inner: W) -> Self
        ensures inner { result.inner ≡ inner }
        ensures faults { result.faults ≡ 0 }
    {
        WriterSink { inner, faults: 0 }
    }
}

impl<W: Write> Sink for WriterSink<W> {
    ghost text = { λ s. W.contents s.inner };

    ghost faults = { λ s. s.faults };

    fn write(&mut self, piece: &[u8]) -> Result<usize, Failed>
        ensures count { WritesAtMost result piece.now }
        ensures bytes { WriteAppends (W.contents self.old.inner) (W.contents self.new.inner) result piece.now }
        ensures rises { self.old.faults ≤ self.new.faults }
        ensures failed { OnErr result (HasRisen self.old.faults self.new.faults) }
        ensures none_taken { result ≡ Ok 0 → 0 < length piece.now → HasRisen self.old.faults self.new.faults }
        ensures quiet { IfOk result (λ n. 0 < n → self.new.faults ≡ self.old.faults) }
    {
        match self.inner.write(piece) {
            Ok(count) => {
                if count == 0 && !piece.is_empty() {
                    self.faults = self.faults.saturating_add(1);
                }
                Ok(count)
            }
            Err(_) => {
                self.faults = self.faults.saturating_add(1);
                Err(Failed)
            }
        }
    }
}
