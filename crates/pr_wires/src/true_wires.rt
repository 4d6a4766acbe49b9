// Wires in memory that never fail.
ghost use Rattle.std.specs.Prelude.{◌≡◌, None, true};

use crate::{TrueWire, Wires};
use pr_ports::Failed;
use std::marker::Model;

/// Makes wires that never fail: each connection is sound.
#[derive(Drop)]
pub struct TrueWires {
    made: u64,
    out: u64,
}

impl Model for TrueWires {
    ghost use Rattle.std.specs.Prelude.{◌≤◌};
    ghost use Rattle.pr_wires.specs.Made.{Counts};

    ghost Value = { Counts };

    ghost view = { λ w. record { made = w.made; out = w.out } };

    ghost invariant = { λ w. w.out ≤ w.made };
}

impl TrueWires {
    pub fn new() -> TrueWires
        ensures { result ≡ record { made = 0; out = 0 } }
    {
        TrueWires { made: 0, out: 0 }
    }
}

impl Wires for TrueWires {
    type Wire = TrueWire;

    ghost faults = { λ w. 0 };

    ghost made = { λ w. w.made };

    ghost out = { λ w. w.out };

    ghost sound = { λ w k. true };

    ghost carried = { λ w. None };

    fn connect(&mut self, _from: u32, _to: u32) -> Result<TrueWire, Failed> {
        self.made += 1;
        self.out += 1;
        Ok(TrueWire::new())
    }

    fn close(&mut self, _wire: TrueWire) {
        self.out -= 1;
    }
}
