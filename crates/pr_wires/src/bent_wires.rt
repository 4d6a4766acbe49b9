// Wires that go wrong as a plan says.
ghost use Rattle.pr_ports.specs.Faults.{HasRisen};
ghost use Rattle.pr_wires.specs.Bends.{bends_of, bent_state, is_unbent, names, new_bent, refuses};
ghost use Rattle.pr_wires.specs.Calls.{IsUnused};
ghost use Rattle.pr_wires.specs.Loops.{CountsRefused};
ghost use Rattle.pr_wires.specs.Made.{AnswersBySound, wires_given};
ghost use Rattle.std.specs.List.{list_any};
ghost use Rattle.std.specs.Prelude.{◌≡◌, ◌≤◌, ◌<◌, ◌+◌, ◌^◌, ◌↔◌, IfOk, IsErr, IsTrue, OnErr, None, filter, length};

use crate::{Bend, BentWire, Wires};
use arrayvec::ArrayVec;
use pr_ports::Failed;
use std::marker::Model;

/// Bends the connections that its plan names. Each other connection is sound, as those of `TrueWires` are.
#[derive(Drop)]
pub struct BentWires {
    plan: Vec<Bend>,
    made: u64,
    out: u64,
    faults: u64,
}

impl Model for BentWires {
    ghost use Rattle.std.specs.Prelude.{◌≤◌, length};
    ghost use Rattle.pr_wires.specs.Bends.{Plan};

    ghost Value = { Plan };

    ghost view = { λ w. record { bends = w.plan.items; made = w.made; out = w.out; faults = w.faults } };

    ghost invariant = { λ w. (length w.plan.items ≤ 16) × (w.out ≤ w.made) };
}

impl BentWires {
    /// Bends connections by this plan.
    pub fn new(plan: Vec<Bend>) -> BentWires
        requires { length plan.items ≤ 16 }
        ensures { result ≡ record { bends = plan.items; made = 0; out = 0; faults = 0 } }
    {
        BentWires {
            plan,
            made: 0,
            out: 0,
            faults: 0,
        }
    }

    // The bends of the connection of this number.
    fn bends_of(&self, nth: u64) -> ArrayVec<Bend, 16>
        ensures { result.items ≡ bends_of self.now.bends nth }
    {
        let mut bends = ArrayVec::new();
        for bend in &self.plan {
            if bend.nth() == nth {
                bends.push(*bend);
            }
        }
        bends
    }
}

impl Wires for BentWires {
    type Wire = BentWire;

    ghost faults = { λ w. w.faults };

    ghost made = { λ w. w.made };

    ghost out = { λ w. w.out };

    ghost sound = { λ w k. is_unbent w.bends k };

    ghost carried = { λ w. None };

    fn connect(&mut self, _from: u32, _to: u32) -> Result<BentWire, Failed>
        requires { self.old.made < 2 ^ 40 }
        ensures made { self.new.made ≡ self.old.made + 1 }
        ensures out { self.new.out ≡ self.old.out + wires_given result }
        ensures same { self.new.bends ≡ self.old.bends }
        ensures faults { self.old.faults ≤ self.new.faults }
        ensures counted { CountsRefused self.old.faults self.new.faults result }
        ensures failed { OnErr result (HasRisen self.old.faults self.new.faults) }
        ensures sound { AnswersBySound bent_state result (is_unbent self.old.bends (self.old.made + 1)) }
        ensures refused { IsErr result ↔ IsTrue (list_any refuses (bends_of self.old.bends (self.old.made + 1))) }
        ensures bent { IfOk result (λ w. w ≡ new_bent (bends_of self.old.bends (self.old.made + 1))) }
    {
        self.made += 1;
        let bends = self.bends_of(self.made);
        if is_refused(bends.as_slice()) {
            self.faults = self.faults.saturating_add(1);
            return Err(Failed);
        }
        self.out += 1;
        Ok(BentWire::new(bends))
    }

    fn close(&mut self, _wire: BentWire) {
        self.out -= 1;
    }
}

// Whether a connection with these bends is refused.
fn is_refused(bends: &[Bend]) -> bool
    ensures { result ≡ list_any refuses bends.now }
{
    bends.iter().any(|bend| bend.refuses())
}
