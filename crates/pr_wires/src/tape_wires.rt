// One wire that keeps what goes over it.
ghost use Rattle.pr_ports.specs.Faults.{HasRisen};
ghost use Rattle.pr_wires.specs.Calls.{IsUnused};
ghost use Rattle.pr_wires.specs.Made.{AnswersBySound, GivesTape, state_of, wires_given};
ghost use Rattle.std.specs.Prelude.{◌≡◌, ◌≤◌, ◌<◌, ◌+◌, ◌^◌, [], ◌∷◌, IfOk, MatchOption, OnErr, Some, false};

use crate::{TapeWire, Wires};
use pr_ports::Failed;
use pr_stamps::NoMemory;
use std::alloc::Global;
use std::marker::Model;

/// For tests: its first connection is a tape of so many bytes, and each further one fails.
#[derive(Drop)]
pub struct TapeWires {
    room: usize,
    fresh: Option<Vec<u8>>,
    closed: Option<TapeWire>,
    made: u64,
    out: u64,
    faults: u64,
}

impl Model for TapeWires {
    ghost use Rattle.std.specs.Prelude.{◌≡◌, ◌≤◌, ◌+◌, IfNone, IfSome, length, map, take, option_to_list, vec_capacity};
    ghost use Rattle.pr_wires.specs.Made.{Tapes};

    ghost Value = { Tapes };

    ghost view = { λ w. record { room = w.room; made = w.made; out = w.out; faults = w.faults; carried = map (λ t. take t.at t.given) (option_to_list w.closed) } };

    ghost invariant = { λ w. (length (option_to_list w.fresh) + w.out + length (option_to_list w.closed) ≡ 1) × IfSome w.fresh (λ v. (w.made ≡ 0) × (w.room ≤ vec_capacity v)) × IfNone w.fresh (1 ≤ w.made) };
}

impl TapeWires {
    /// A tape of so many bytes, for which the memory is taken here.
    pub fn new(alloc: Global, room: usize) -> Result<TapeWires, NoMemory>
        ensures { IfOk result (λ w. w ≡ record { room = room; made = 0; out = 0; faults = 0; carried = [] }) }
    {
        let bytes = Vec::with_capacity(alloc, room)?;
        Ok(TapeWires {
            room,
            fresh: Some(bytes),
            closed: None,
            made: 0,
            out: 0,
            faults: 0,
        })
    }

    /// The bytes taken over the closed wire; None exactly where no wire was closed.
    pub fn carried(&self) -> Option<&[u8]>
        ensures { MatchOption result (self.now.carried ≡ []) (λ bytes. self.now.carried ≡ bytes.now ∷ []) }
    {
        match &self.closed {
            None => None,
            Some(wire) => Some(wire.taken()),
        }
    }
}

impl Wires for TapeWires {
    type Wire = TapeWire;

    ghost faults = { λ w. w.faults };

    ghost made = { λ w. w.made };

    ghost out = { λ w. w.out };

    ghost sound = { λ w k. false };

    ghost carried = { λ w. Some w.carried };

    fn connect(&mut self, _from: u32, _to: u32) -> Result<TapeWire, Failed>
        requires { self.old.made < 2 ^ 40 }
        ensures made { self.new.made ≡ self.old.made + 1 }
        ensures out { self.new.out ≡ self.old.out + wires_given result }
        ensures same { self.new.carried ≡ self.old.carried }
        ensures faults { self.old.faults ≤ self.new.faults }
        ensures failed { OnErr result (HasRisen self.old.faults self.new.faults) }
        ensures unused { IfOk result (λ w. IsUnused (state_of w)) }
        ensures tape { GivesTape self.old result }
        ensures room { self.new.room ≡ self.old.room }
    {
        self.made += 1;
        match self.fresh.take() {
            Some(bytes) => {
                self.out += 1;
                Ok(TapeWire::over(bytes, self.room))
            }
            None => {
                self.faults = self.faults.saturating_add(1);
                Err(Failed)
            }
        }
    }

    fn close(&mut self, wire: TapeWire) {
        self.out -= 1;
        self.closed = Some(wire);
    }
}
