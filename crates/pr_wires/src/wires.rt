// What makes connections.
ghost use Rattle.pr_ports.specs.Faults.{HasRisen};
ghost use Rattle.pr_wires.specs.Calls.{IsUnused};
ghost use Rattle.pr_wires.specs.Made.{AnswersBySound, Carries, wires_given};
ghost use Rattle.std.specs.Prelude.{◌≡◌, ◌≤◌, ◌<◌, ◌+◌, ◌^◌, ℕ, Bool, List, Option, IfOk, OnErr};

use crate::Wire;
use pr_ports::Failed;

/// Makes wires, each for a flow from one node to another, and takes them back.
pub trait Wires {
    type Wire: Wire + Send;

    /// How often a connection failed; the count never falls.
    ghost faults: { Self → ℕ };

    /// How many connections were asked for.
    ghost made: { Self → ℕ };

    /// How many wires were given and not closed.
    ghost out: { Self → ℕ };

    /// Whether the connection of this number, from 1, is sound.
    ghost sound: { Self → ℕ → Bool };

    /// What was taken over each wire that was closed, in order, where the object tells it.
    ghost carried: { Self → Option (List (List ℕ)) };

    /// A new wire between these nodes.
    fn connect(&mut self, from: u32, to: u32) -> Result<Self::Wire, Failed>
        requires { made self.old < 2 ^ 40 }
        ensures made { made self.new ≡ made self.old + 1 }
        ensures out { out self.new ≡ out self.old + wires_given result }
        ensures same { (sound self.new ≡ sound self.old) × (carried self.new ≡ carried self.old) }
        ensures faults { faults self.old ≤ faults self.new }
        ensures failed { OnErr result (HasRisen (faults self.old) (faults self.new)) }
        ensures sound { AnswersBySound Self.Wire.state result (sound self.old (made self.old + 1)) }
        ensures unused { IfOk result (λ w. IsUnused (Self.Wire.state w)) };

    /// Takes back a wire.
    fn close(&mut self, wire: Self::Wire)
        requires { 0 < out self.old }
        ensures out { out self.new + 1 ≡ out self.old }
        ensures same { (made self.new ≡ made self.old) × (sound self.new ≡ sound self.old) × (faults self.new ≡ faults self.old) }
        ensures carried { Carries (carried self.old) (carried self.new) (Self.Wire.state wire).taken };
}
