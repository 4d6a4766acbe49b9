// The steps of a script, one after the other.
ghost use Rattle.pr_script.specs.Steps.{is_phase};
ghost use Rattle.pr_script.specs.declared.command.Command.TheVariants as commands;
ghost use Rattle.pr_script.specs.declared.script.Script.{Script};
ghost use Rattle.pr_story.specs.History.{NodeEntry};
ghost use Rattle.pr_text.specs.Histories.{first_of, is_met};
ghost use Rattle.pr_sim.specs.Making.{declared_of};
ghost use Rattle.pr_top.specs.Carrying.{StepCarries};
ghost use Rattle.pr_top.specs.Downs.{AddsTrueDowns, IsWithin};
ghost use Rattle.pr_top.specs.Progress.{CanGoOn, HasCome, HasStepped, IsAlone};
ghost use Rattle.pr_top.specs.Stopping.{IsWent};
ghost use Rattle.pr_top.specs.Runs.{all_sound};
ghost use Rattle.pr_top.specs.declared.stepping.Halt.TheVariants as halts;
ghost use Rattle.pr_story.specs.Scripts.{ByTime, JobAfterJob, Order};
ghost use Rattle.std.specs.Prelude.{◌≡◌, ◌∷◌, ◌≤◌, ◌<◌, ◌+◌, ◌^◌, IfOk, List, None, Some, cond, drop, not, true};

use pr_flow::Stop;
use pr_script::{Bytes, Command, Want, phase_len};
use pr_sim::Engine;
use pr_stamps::NoMemory;
use pr_story::Event;
use pr_text::met;
use pr_wires::{TrueWires, Wires};

/// Why a run did not come to the end of its script.
#[derive(Drop)]
pub enum Halt {
    WriteFault,
    Worn {
        at: u64,
    },
    Lied {
        stream: u32,
        number: u64,
        sent: Bytes,
        got: Bytes,
    },
    NoMemory,
}

impl From<NoMemory> for Halt {
    ghost from_gives = { λ _ halt. halt ≡ halts.NoMemory };

    fn from(_refused: NoMemory) -> Halt {
        Halt::NoMemory
    }
}

/// A script's run: its engine, and the line of the first expectation that was not met.
#[derive(Drop)]
pub struct Run {
    pub engine: Engine,
    pub unmet: Option<u64>,
}

impl Run {
    /// Runs the step that comes first in one thread, a command alone or a phase up to its `end`, and answers how many
    /// commands behind the first one that took. Each wire is one in memory that never fails.
    pub fn step(&mut self, first: &(u64, Command), behind: &[(u64, Command)]) -> Result<usize, Halt>
        requires { CanGoOn JobAfterJob (first.now ∷ behind.now) self.old.engine self.old.unmet }
        ensures steps { (s : Script) (h : List NodeEntry) → HasCome JobAfterJob s (first.now ∷ behind.now) h self.old.engine self.old.unmet → HasStepped JobAfterJob all_sound s (first.now ∷ behind.now) h self.new.engine self.new.unmet result }
        ensures downs { (s : Script) (h : List NodeEntry) → HasCome JobAfterJob s (first.now ∷ behind.now) h self.old.engine self.old.unmet → AddsTrueDowns all_sound s h self.new.engine }
    {
        match &first.1 {
            Command::Expect { want } => {
                self.judge(first.0, want, behind);
                Ok(0)
            }
            Command::Phase => self.phase(first, behind),
            _ => self.alone(first, behind, &mut TrueWires::new()),
        }
    }

    // Runs the phase whose first word this is, its jobs one after the other.
    fn phase(&mut self, first: &(u64, Command), behind: &[(u64, Command)]) -> Result<usize, Halt>
        requires come { CanGoOn JobAfterJob (first.now ∷ behind.now) self.old.engine self.old.unmet }
        requires phase { is_phase first.now.1 ≡ true }
        ensures steps { (s : Script) (h : List NodeEntry) → HasCome JobAfterJob s (first.now ∷ behind.now) h self.old.engine self.old.unmet → HasStepped JobAfterJob all_sound s (first.now ∷ behind.now) h self.new.engine self.new.unmet result }
        ensures downs { (s : Script) (h : List NodeEntry) → HasCome JobAfterJob s (first.now ∷ behind.now) h self.old.engine self.old.unmet → AddsTrueDowns all_sound s h self.new.engine }
    {
        let _ = first;
        let (inside, left) = behind.split_at(phase_len(behind));
        went(self.engine.phase_in_order(inside, &mut TrueWires::new()))?;
        Ok(behind.len() - (left.len() - 1))
    }

    /// Runs a command that is no expectation and begins no phase, each flow over a wire of these.
    pub fn alone<W: Wires>(
        &mut self,
        first: &(u64, Command),
        behind: &[(u64, Command)],
        wires: &mut W,
    ) -> Result<usize, Halt>
        requires come { (order : Order) × CanGoOn order (first.now ∷ behind.now) self.old.engine self.old.unmet }
        requires alone { IsAlone first.now.1 }
        requires few { W.made wires.old < 2 ^ 40 }
        ensures steps { (order : Order) (s : Script) → IsWithin (W.sound wires.old) (W.made wires.old) (first.now ∷ behind.now) s → (h : List NodeEntry) → HasCome order s (first.now ∷ behind.now) h self.old.engine self.old.unmet → HasStepped order (W.sound wires.old) s (first.now ∷ behind.now) h self.new.engine self.new.unmet result }
        ensures downs { (order : Order) (s : Script) → IsWithin (W.sound wires.old) (W.made wires.old) (first.now ∷ behind.now) s → (h : List NodeEntry) → HasCome order s (first.now ∷ behind.now) h self.old.engine self.old.unmet → AddsTrueDowns (W.sound wires.old) s h self.new.engine }
        ensures carried { (s : Script) (h : List NodeEntry) → HasCome ByTime s (first.now ∷ behind.now) h self.old.engine self.old.unmet → StepCarries s (first.now ∷ behind.now) h self.new.engine (W.carried wires.old) (W.carried wires.new) result }
        ensures made { W.made wires.new ≤ W.made wires.old + 1 }
        ensures sound { W.sound wires.new ≡ W.sound wires.old }
        ensures within { (s : Script) → IsWithin (W.sound wires.old) (W.made wires.old) (first.now ∷ behind.now) s → IfOk result (λ n. IsWithin (W.sound wires.new) (W.made wires.new) (drop (n + 1) (first.now ∷ behind.now)) s) }
    {
        let _ = behind;
        went(self.engine.step(&first.1, wires))?;
        Ok(0)
    }

    /// Judges the read that came last.
    pub fn judge(&mut self, line: u64, want: &Want, behind: &[(u64, Command)])
        requires { (order : Order) × CanGoOn order ((line, commands.Expect want.now) ∷ behind.now) self.old.engine self.old.unmet }
        ensures { (order : Order) (s : Script) (h : List NodeEntry) → HasCome order s ((line, commands.Expect want.now) ∷ behind.now) h self.old.engine self.old.unmet → HasCome order s behind.now h self.new.engine self.new.unmet }
    {
        let _ = behind;
        let last = self.engine.history().len() - 1;
        let unmet = judged(self.unmet, line, want, &self.engine.entry(last).event);
        self.unmet = unmet;
    }
}

// The line of the first expectation that was not met, where one more is judged.
fn judged(unmet: Option<u64>, line: u64, want: &Want, event: &Event) -> Option<u64>
    ensures { result ≡ first_of unmet (cond (not (is_met want.now event.now)) (Some line) None) }
{
    if unmet.is_some() {
        return unmet;
    }
    if met(want, event) {
        return None;
    }
    Some(line)
}

/// The answer of a step as the run's.
pub fn went(stop: Result<Stop, NoMemory>) -> Result<(), Halt>
    ensures { IsWent stop result }
{
    match stop {
        Ok(Stop::Went) => Ok(()),
        Ok(Stop::Worn { at }) => Err(Halt::Worn { at }),
        Ok(
            Stop::Lied {
                stream,
                number,
                sent,
                got,
            },
        ) => Err(Halt::Lied {
            stream,
            number,
            sent,
            got,
        }),
        Err(NoMemory) => Err(Halt::NoMemory),
    }
}
