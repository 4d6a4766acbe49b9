// A script is run with the jobs of its phases beside each other.
ghost use Rattle.pr_ports.specs.Faults.{HasRisen};
ghost use Rattle.pr_script.specs.Good.{IsGood};
ghost use Rattle.pr_script.specs.Steps.{is_phase};
ghost use Rattle.pr_script.specs.declared.script.Script.{Script};
ghost use Rattle.pr_story.specs.History.{NodeEntry};
ghost use Rattle.pr_story.specs.Scripts.{ByTime};
ghost use Rattle.pr_sim.specs.Making.{declared_of};
ghost use Rattle.pr_top.specs.Carrying.{HasRunOver, StepCarries, TellsCarried, UnendedCarries};
ghost use Rattle.pr_top.specs.Downs.{AddsTrueDowns, IsWithin, TellsTrueDowns};
ghost use Rattle.pr_top.specs.Progress.{CanGoOn, HasCome, HasRunAll, HasStepped};
ghost use Rattle.pr_top.specs.Unended.{HasRunUnended};
ghost use Rattle.std.specs.Prelude.{◌≡◌, ◌∷◌, ◌≤◌, ◌+◌, ◌*◌, ◌^◌, [], IfOk, List, drop, length, true};

use crate::Status;
use crate::running::{begin, finish, tell_from};
use crate::stepping::{Halt, Run, went};
use pr_crew::{Gate, phase};
use pr_ports::Sink;
use pr_script::{Command, Script, phase_len};
use pr_stamps::Seq;
use pr_text::ClockTexts;
use pr_wires::Wires;
use std::alloc::Global;
use std::sync::Wait;
use std::thread::Threads;

/// Runs scripts with each job of a phase in a thread of its own, which calls the gate before each of its lines, and each
/// flow over a connection of its own.
#[derive(Drop)]
pub struct Beside<'a, R, G> {
    pub rt: &'a R,
    pub alloc: Global,
    pub gate: &'a G,
}

impl<'a, R: Threads + Wait + Sync, G: Gate> Beside<'a, R, G> {
    /// Runs a script, and writes its transcript: the head lines first, and each command's lines, or a phase's, before the
    /// next command runs.
    pub fn run<W: Wires, K: Sink>(&self, script: &Script, wires: &mut W, out: &mut K) -> Status
        requires good { IsGood script.now }
        requires lines { length script.now.commands ≤ 100000 }
        requires few { W.made wires.old ≡ 0 }
        ensures run { HasRunOver (W.sound wires.old) (W.carried wires.old) (W.carried wires.new) result script.now (HasRisen (K.faults out.old) (K.faults out.new)) (K.text out.old) (K.text out.new) }
        ensures rises { K.faults out.old ≤ K.faults out.new }
    {
        let ended = self.unended(script, wires, out);
        finish(self.alloc, script, ended, out)
    }

    // Writes the transcript up to its `ok` line.
    fn unended<W: Wires, K: Sink>(
        &self,
        script: &Script,
        wires: &mut W,
        out: &mut K,
    ) -> Result<Run, Halt>
        requires good { IsGood script.now }
        requires lines { length script.now.commands ≤ 100000 }
        requires few { W.made wires.old ≡ 0 }
        ensures told { (run : HasRunUnended ByTime (W.sound wires.old) script.now (HasRisen (K.faults out.old) (K.faults out.new)) (K.text out.old) (K.text out.new) result) × UnendedCarries script.now run.0 (W.carried wires.old) (W.carried wires.new) result }
        ensures rises { K.faults out.old ≤ K.faults out.new }
    {
        let mut run = begin(self.alloc, script, out)?;
        self.commands(script, &mut run, wires, out)?;
        Ok(run)
    }

    // Runs all commands, and writes each one's lines before the next runs.
    fn commands<W: Wires, K: Sink>(
        &self,
        script: &Script,
        run: &mut Run,
        wires: &mut W,
        out: &mut K,
    ) -> Result<(), Halt>
        requires come { HasCome ByTime script.now script.now.commands [] run.old.engine run.old.unmet }
        requires lines { length script.now.commands ≤ 100000 }
        requires few { W.made wires.old ≡ 0 }
        ensures run { HasRunAll ByTime (W.sound wires.old) script.now (HasRisen (K.faults out.old) (K.faults out.new)) (K.text out.old) (K.text out.new) run.new.engine run.new.unmet result }
        ensures downs { TellsTrueDowns (W.sound wires.old) script.now run.new.engine }
        ensures carried { IfOk result (λ done. TellsCarried script.now [] run.new.engine (W.carried wires.old) (W.carried wires.new)) }
        ensures rises { K.faults out.old ≤ K.faults out.new }
    {
        let list = script.commands.as_slice();
        let decls = &script.decls;
        let mut clocks = ClockTexts::new(self.alloc);
        let mut text = Seq::new(self.alloc);
        let mut told = 0;
        let mut at = 0;
        while at < list.len() {
            let step = self.step(run, &list[at], &list[at + 1..], wires);
            told = tell_from(decls, &mut clocks, &run.engine, told, &mut text, out)?;
            at += step? + 1;
        }
        Ok(())
    }

    // Runs the step that comes first, and answers how many commands behind the first one that took.
    fn step<W: Wires>(
        &self,
        run: &mut Run,
        first: &(u64, Command),
        behind: &[(u64, Command)],
        wires: &mut W,
    ) -> Result<usize, Halt>
        requires come { CanGoOn ByTime (first.now ∷ behind.now) run.old.engine run.old.unmet }
        requires lines { length behind.now ≤ 100000 }
        requires few { W.made wires.old + 64 ≤ 2 ^ 40 }
        ensures steps { (s : Script) → IsWithin (W.sound wires.old) (W.made wires.old) (first.now ∷ behind.now) s → (h : List NodeEntry) → HasCome ByTime s (first.now ∷ behind.now) h run.old.engine run.old.unmet → HasStepped ByTime (W.sound wires.old) s (first.now ∷ behind.now) h run.new.engine run.new.unmet result }
        ensures downs { (s : Script) → IsWithin (W.sound wires.old) (W.made wires.old) (first.now ∷ behind.now) s → (h : List NodeEntry) → HasCome ByTime s (first.now ∷ behind.now) h run.old.engine run.old.unmet → AddsTrueDowns (W.sound wires.old) s h run.new.engine }
        ensures carried { (s : Script) (h : List NodeEntry) → HasCome ByTime s (first.now ∷ behind.now) h run.old.engine run.old.unmet → StepCarries s (first.now ∷ behind.now) h run.new.engine (W.carried wires.old) (W.carried wires.new) result }
        ensures made { W.made wires.new ≤ W.made wires.old + 64 }
        ensures sound { W.sound wires.new ≡ W.sound wires.old }
        ensures within { (s : Script) → IsWithin (W.sound wires.old) (W.made wires.old) (first.now ∷ behind.now) s → (h : List NodeEntry) → HasCome ByTime s (first.now ∷ behind.now) h run.old.engine run.old.unmet → IfOk result (λ n. IsWithin (W.sound wires.new) (W.made wires.new) (drop (n + 1) (first.now ∷ behind.now)) s) }
    {
        match &first.1 {
            Command::Expect { want } => {
                run.judge(first.0, want, behind);
                Ok(0)
            }
            Command::Phase => self.phase(run, first, behind, wires),
            _ => run.alone(first, behind, wires),
        }
    }

    // Runs the phase whose first word this is.
    fn phase<W: Wires>(
        &self,
        run: &mut Run,
        first: &(u64, Command),
        behind: &[(u64, Command)],
        wires: &mut W,
    ) -> Result<usize, Halt>
        requires come { CanGoOn ByTime (first.now ∷ behind.now) run.old.engine run.old.unmet }
        requires phase { is_phase first.now.1 ≡ true }
        requires lines { length behind.now ≤ 100000 }
        requires few { W.made wires.old + 64 ≤ 2 ^ 40 }
        ensures steps { (s : Script) → IsWithin (W.sound wires.old) (W.made wires.old) (first.now ∷ behind.now) s → (h : List NodeEntry) → HasCome ByTime s (first.now ∷ behind.now) h run.old.engine run.old.unmet → HasStepped ByTime (W.sound wires.old) s (first.now ∷ behind.now) h run.new.engine run.new.unmet result }
        ensures downs { (s : Script) → IsWithin (W.sound wires.old) (W.made wires.old) (first.now ∷ behind.now) s → (h : List NodeEntry) → HasCome ByTime s (first.now ∷ behind.now) h run.old.engine run.old.unmet → AddsTrueDowns (W.sound wires.old) s h run.new.engine }
        ensures carried { (s : Script) (h : List NodeEntry) → HasCome ByTime s (first.now ∷ behind.now) h run.old.engine run.old.unmet → StepCarries s (first.now ∷ behind.now) h run.new.engine (W.carried wires.old) (W.carried wires.new) result }
        ensures made { W.made wires.new ≤ W.made wires.old + 64 }
        ensures sound { W.sound wires.new ≡ W.sound wires.old }
        ensures within { (s : Script) → IsWithin (W.sound wires.old) (W.made wires.old) (first.now ∷ behind.now) s → (h : List NodeEntry) → HasCome ByTime s (first.now ∷ behind.now) h run.old.engine run.old.unmet → IfOk result (λ n. IsWithin (W.sound wires.new) (W.made wires.new) (drop (n + 1) (first.now ∷ behind.now)) s) }
    {
        let _ = first;
        let (inside, left) = behind.split_at(phase_len(behind));
        went(phase(
            self.rt,
            self.alloc,
            &mut run.engine,
            inside,
            wires,
            self.gate,
        ))?;
        Ok(behind.len() - (left.len() - 1))
    }
}
