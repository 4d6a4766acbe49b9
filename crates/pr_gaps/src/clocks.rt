// The clocks of one node that were told for one set.
ghost use Rattle.pr_gaps.specs.Ranges.{HasClock, IsIn, no_clocks};
ghost use Rattle.std.specs.Prelude.{◌≡◌, ◌≤◌, ◌<◌, ◌+◌, ◌⊎◌, ◌↔◌, ℕ, OnOk};

use crate::ranges::Ranges;
use pr_stamps::NoMemory;
use std::alloc::Global;
use std::marker::Model;

// A set of clocks: those from 1 up to one, and the others as ranges, of which there are none where clocks are told in
// their order, as mostly.
#[derive(Drop)]
pub struct Clocks {
    last: u64,
    others: Ranges,
}

impl Model for Clocks {
    ghost use Rattle.std.specs.Prelude.{◌≤◌, ◌+◌};
    ghost use Rattle.pr_gaps.specs.Ranges.{IsIn, Run};

    ghost Value = { Run };

    ghost view = { λ c. record { last = c.last; others = c.others } };

    ghost invariant = { λ c. (c.last ≤ 4611686018427387903) × ¬ IsIn c.others (c.last + 1) };
}

impl Clocks {
    pub fn new(alloc: Global) -> Clocks
        ensures { result ≡ no_clocks }
    {
        Clocks {
            last: 0,
            others: Ranges::new(alloc),
        }
    }

    // The clocks from `lo` to `hi` are in the set too. It takes constant time where they follow those from 1 on and there
    // are no others, and else the time of `Ranges::add` or of `Ranges::join_run`.
    pub fn add(&mut self, lo: u64, hi: u64) -> Result<(), NoMemory>
        requires some { 1 ≤ lo }
        requires order { lo ≤ hi }
        requires most { hi ≤ 4611686018427387903 }
        ensures { OnOk result ((c : ℕ) → HasClock self.new c ↔ (HasClock self.old c ⊎ ((lo ≤ c) × (c ≤ hi)))) }
    {
        if lo > self.last + 1 {
            return self.others.add(lo, hi);
        }
        self.last = join_run(&mut self.others, self.last.max(hi));
        Ok(())
    }

    // The greatest clock up to which each clock from 1 is in the set, in constant time.
    pub fn run(&self) -> u64
        ensures within { (c : ℕ) → 1 ≤ c → c ≤ result → HasClock self.now c }
        ensures end { ¬ HasClock self.now (result + 1) }
    {
        let _ = &self.others;
        self.last
    }
}

// The ranges that touch the clocks up to this one go over to them; up to where they go then.
fn join_run(others: &mut Ranges, last: u64) -> u64
    requires { last ≤ 4611686018427387903 }
    ensures most { result ≤ 4611686018427387903 }
    ensures same { (c : ℕ) → (((1 ≤ c) × (c ≤ result)) ⊎ IsIn others.new c) ↔ (((1 ≤ c) × (c ≤ last)) ⊎ IsIn others.old c) }
    ensures end { ¬ IsIn others.new (result + 1) }
{
    if others.is_empty() {
        last
    } else {
        others.join_run(last)
    }
}
