// A sink that takes in pieces, and fails where it is told to.
ghost use Rattle.pr_ports.specs.Faults.{GivesAtMost, HasRisen};
ghost use Rattle.pr_ports.specs.Memory.{Holds, next_call};
ghost use Rattle.std.specs.Io.{WritesAtMost};
ghost use Rattle.std.specs.Io.KnownBytes.{WriteAppends};
ghost use Rattle.std.specs.Prelude.{◌≡◌, ◌≤◌, ◌<◌, ◌↔◌, ◌⊎◌, [], Contains, IfOk, IsErr, Ok, OnErr, OnOk, Some, length, min};

use crate::{Failed, Sink};
use pr_stamps::NoMemory;
use std::alloc::Global;
use std::marker::Model;

/// Holds the bytes that it is given, at most `piece` of them a call and `room` in all, and fails at the calls whose
/// numbers, from 1, are in `fail`. Its memory is taken when it is made; a write with no room left fails.
#[derive(Drop)]
pub struct MemorySink {
    held: Vec<u8>,
    room: usize,
    piece: usize,
    fail: Vec<u64>,
    calls: u64,
    faults: u64,
}

impl Model for MemorySink {
    ghost use Rattle.std.specs.Prelude.{◌+◌, ◌≤◌, vec_capacity, vec_len};
    ghost use Rattle.pr_ports.specs.Memory.{Taking};

    ghost Value = { Taking };

    ghost view = { λ s. record { text = s.held.items; room = s.room; piece = s.piece; fail = s.fail.items; calls = s.calls; faults = s.faults } };

    ghost invariant = { λ s. (vec_len s.held + s.room ≤ vec_capacity s.held) × (1 ≤ s.piece) };
}

impl MemorySink {
    pub fn new(
        alloc: Global,
        room: usize,
        piece: usize,
        fail: Vec<u64>,
    ) -> Result<MemorySink, NoMemory>
        requires { 1 ≤ piece }
        ensures { IfOk result (λ s. s ≡ record { text = []; room = room; piece = piece; fail = fail.items; calls = 0; faults = 0 }) }
    {
        let held = Vec::with_capacity(alloc, room)?;
        Ok(MemorySink {
            held,
            room,
            piece,
            fail,
            calls: 0,
            faults: 0,
        })
    }

    /// The bytes taken so far.
    pub fn bytes(&self) -> &[u8]
        ensures { result.now ≡ self.now.text }
    {
        self.held.as_slice()
    }
}

impl Sink for MemorySink {
    ghost text = { λ s. Some s.text };

    ghost faults = { λ s. s.faults };

    fn write(&mut self, piece: &[u8]) -> Result<usize, Failed>
        ensures count { WritesAtMost result piece.now }
        ensures bytes { WriteAppends (Some self.old.text) (Some self.new.text) result piece.now }
        ensures rises { self.old.faults ≤ self.new.faults }
        ensures failed { OnErr result (HasRisen self.old.faults self.new.faults) }
        ensures none_taken { result ≡ Ok 0 → 0 < length piece.now → HasRisen self.old.faults self.new.faults }

        // It fails exactly at the calls that it was told, and where a piece comes and no room is left.
        ensures told { IsErr result ↔ (Contains self.old.fail (next_call self.old.calls) ⊎ ((self.old.room ≡ 0) × (0 < length piece.now))) }
        ensures piece { GivesAtMost result self.old.piece }
        ensures taken { IfOk result (λ n. n ≡ min (min (length piece.now) self.old.piece) self.old.room) }
        ensures quiet { OnOk result (self.new.faults ≡ self.old.faults) }
        ensures stays { Holds self.old self.new }
    {
        self.calls = self.calls.saturating_add(1);
        if self.fail.contains(&self.calls) {
            self.faults = self.faults.saturating_add(1);
            return Err(Failed);
        }
        if self.room == 0 && !piece.is_empty() {
            self.faults = self.faults.saturating_add(1);
            return Err(Failed);
        }
        let n = piece.len().min(self.piece).min(self.room);
        let _ = self.held.extend_from_slice(&piece[..n]);
        self.room -= n;
        Ok(n)
    }
}
