// The jobs of a phase, one after the other.
ghost use Rattle.pr_flow.specs.Downs.{GoesOver, IsUnsoundFor, flow_of, flows_of};
ghost use Rattle.pr_script.specs.Steps.{turns_in};
ghost use Rattle.pr_sim.specs.Commands.{ForEachRun, StepEnds};
ghost use Rattle.pr_sim.specs.Crossing.{JobAdds, PhaseCarries};
ghost use Rattle.pr_sim.specs.Flowing.{AreFewWires};
ghost use Rattle.pr_sim.specs.Phasing.{CanDo, CanRunPhase, GivesAll, GoodPhaseCanRun, IsJobLine, JobEnds, asked_by, asked_of};
ghost use Rattle.pr_sim.specs.Running.{IsKept};
ghost use Rattle.pr_sim.specs.Sound.{AddsDownsOf};
ghost use Rattle.pr_sim.specs.Stepping.{CanRun, StepsByWires};
ghost use Rattle.pr_story.specs.Scripts.{Phase};
ghost use Rattle.pr_text.specs.Steps.{job_of, jobs_of};
ghost use Rattle.std.specs.List.{AllByRecursion};
ghost use Rattle.std.specs.Prelude.{◌≤◌, ◌+◌, ◌^◌, ℕ, IsTrue};

use crate::engine::Engine;
use crate::stepping::{stopped, went};
use pr_flow::Stop;
use pr_inval::NodeFault;
use pr_script::{Command, Owner, owners};
use pr_stamps::NoMemory;
use pr_text::{is_owned_by, turns_of};
use pr_wires::Wires;

impl Engine {
    /// Runs the jobs of a phase one after the other, in the order of their first lines: all lines of a client are one
    /// job, and each flow is one. It stops with the first job that does not go its way. Each job reads the phase's
    /// lines once.
    pub fn phase_in_order<W: Wires>(
        &mut self,
        inside: &[(u64, Command)],
        wires: &mut W,
    ) -> Result<Stop, NoMemory>
        requires kept { IsKept self.old }
        requires can { CanRunPhase self.old inside.now }
        requires few { W.made wires.old + 64 ≤ 2 ^ 40 }
        ensures steps { ForEachRun self.old (λ d attached h. StepEnds (Phase (jobs_of inside.now)) d attached h self.new result) }
        ensures carried { ForEachRun self.old (λ d attached h. PhaseCarries (jobs_of inside.now) (W.carried wires.old) (W.carried wires.new) d attached h self.new result) }
        ensures wires { StepsByWires W.faults W.made W.out W.sound 64 wires.old wires.new }
        ensures over { GoesOver W.made W.sound (flows_of (Phase (jobs_of inside.now))) wires.old wires.new result }
        ensures downs { ForEachRun self.old (λ d attached h. AddsDownsOf (IsUnsoundFor (W.sound wires.old) (W.made wires.old) (flows_of (Phase (jobs_of inside.now)))) d h self.new) }
    {
        let owners = owners(self.alloc, inside)?;
        for owner in owners.as_slice() {
            match self.job(*owner, inside, wires)? {
                Stop::Went => {}
                stop => return Ok(stop),
            }
        }
        Ok(Stop::Went)
    }

    fn job<W: Wires>(
        &mut self,
        owner: Owner,
        inside: &[(u64, Command)],
        wires: &mut W,
    ) -> Result<Stop, NoMemory>
        requires kept { IsKept self.old }
        requires lines { AllByRecursion (IsJobLine self.old) inside.now }
        requires can { CanDo self.old owner }
        requires turns { turns_in inside.now ≤ 1000000 }
        requires few { AreFewWires (W.made wires.old) }
        ensures ends { ForEachRun self.old (λ d attached h. JobEnds (job_of inside.now owner) d attached h self.new result) }
        ensures carried { ForEachRun self.old (λ d attached h. JobAdds (job_of inside.now owner) (W.carried wires.old) (W.carried wires.new) d attached h self.new result) }
        ensures wires { StepsByWires W.faults W.made W.out W.sound 1 wires.old wires.new }
        ensures over { GoesOver W.made W.sound (flow_of (job_of inside.now owner)) wires.old wires.new result }
        ensures downs { ForEachRun self.old (λ d attached h. AddsDownsOf (IsUnsoundFor (W.sound wires.old) (W.made wires.old) (flow_of (job_of inside.now owner))) d h self.new) }
    {
        match owner {
            Owner::Client(client) => went(self.client_job(client, inside)),
            Owner::Stream(stream) => {
                let turns = turns_of(stream, inside);
                stopped(self.flow(stream, turns, wires))
            }
        }
    }

    // Runs the lines of a client.
    fn client_job(&mut self, client: u32, inside: &[(u64, Command)]) -> Result<(), NodeFault>
        requires kept { IsKept self.old }
        requires lines { AllByRecursion (IsJobLine self.old) inside.now }
        ensures { ForEachRun self.old (λ d attached h. GivesAll (asked_by client inside.now) d attached h self.new result) }
    {
        for line in inside {
            self.client_line(client, &line.1)?;
        }
        Ok(())
    }

    // Runs a line if it is one of the client.
    fn client_line(&mut self, client: u32, command: &Command) -> Result<(), NodeFault>
        requires kept { IsKept self.old }
        requires can { CanRun self.old command.now }
        ensures { ForEachRun self.old (λ d attached h. GivesAll (asked_of client command.now) d attached h self.new result) }
    {
        if is_owned_by(Owner::Client(client), command) {
            self.run(command)
        } else {
            Ok(())
        }
    }
}

/// A good phase of a script can be run, where what is declared runs and the streams are attached that the script says.
pub fn good_phases_can_be_run()
    ensures { GoodPhaseCanRun }
{}
