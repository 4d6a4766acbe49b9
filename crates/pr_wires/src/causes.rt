// Why calls of a wire moved nothing.
ghost use Rattle.pr_ports.specs.Faults.{HasRisen};
ghost use Rattle.pr_wires.specs.Counters.{ends_after, one_more};
ghost use Rattle.std.specs.Prelude.{◌≡◌, ◌≤◌, ◌<◌};

use pr_ports::Failed;

// How often a wire has failed, and ended.
#[derive(Drop)]
pub(crate) struct Causes {
    pub(crate) faults: u64,
    pub(crate) ends: u64,
}

impl Causes {
    pub(crate) fn none() -> Causes
        ensures { result ≡ record { faults = 0; ends = 0 } }
    {
        Causes { faults: 0, ends: 0 }
    }

    // A call failed.
    pub(crate) fn fail(&mut self) -> Failed
        ensures counted { self.new ≡ record self.old { faults = one_more self.old.faults } }
        ensures risen { (self.old.faults ≤ self.new.faults) × HasRisen self.old.faults self.new.faults }
    {
        self.faults = self.faults.saturating_add(1);
        Failed
    }

    // A call was asked for so many bytes and moved so many: it has ended the wire where it moved nothing of something.
    pub(crate) fn note(&mut self, moved: usize, asked: usize)
        ensures counted { self.new ≡ record self.old { ends = ends_after self.old.ends moved asked } }
        ensures kept { self.old.ends ≤ self.new.ends }
        ensures risen { moved ≡ 0 → 0 < asked → HasRisen self.old.ends self.new.ends }
    {
        if moved == 0 && asked > 0 {
            self.ends = self.ends.saturating_add(1);
        }
    }
}
