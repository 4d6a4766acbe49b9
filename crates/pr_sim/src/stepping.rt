// A script's commands.
ghost use Rattle.pr_flow.specs.Downs.{GoesOver, IsUnsoundFor, flows_of};
ghost use Rattle.pr_inval.specs.declared.node_fault.NodeFault.{NodeFault};
ghost use Rattle.pr_sim.specs.Commands.{Ends, ForEachRun, StepEnds};
ghost use Rattle.pr_sim.specs.Crossing.{CommandCarries};
ghost use Rattle.pr_sim.specs.Flowing.{AreFewWires};
ghost use Rattle.pr_sim.specs.Running.{IsKept};
ghost use Rattle.pr_sim.specs.Sound.{AddsDownsOf};
ghost use Rattle.pr_sim.specs.Stepping.{AttachedTogether, CanRun, GoodCanRun, IsShort, IsStopOf, StepsByWires, went_of};
ghost use Rattle.pr_text.specs.Steps.{line_of};
ghost use Rattle.std.specs.Prelude.{◌≡◌, ◌+◌, IsTrue};

use crate::engine::Engine;
use pr_flow::Stop;
use pr_inval::NodeFault;
use pr_script::Command;
use pr_stamps::NoMemory;
use pr_wires::Wires;

impl Engine {
    /// Runs one command that stands outside a phase; the words of a phase do nothing. It costs what the command does:
    /// a flow its turns, a settle its rounds, and any other at most one entry.
    pub fn step<W: Wires>(&mut self, command: &Command, wires: &mut W) -> Result<Stop, NoMemory>
        requires kept { IsKept self.old }
        requires can { CanRun self.old command.now }
        requires few { AreFewWires (W.made wires.old) }
        ensures steps { ForEachRun self.old (λ d attached h. StepEnds (line_of command.now) d attached h self.new result) }
        ensures carried { ForEachRun self.old (λ d attached h. CommandCarries command.now (W.carried wires.old) (W.carried wires.new) d attached h self.new result) }
        ensures wires { StepsByWires W.faults W.made W.out W.sound 1 wires.old wires.new }
        ensures over { GoesOver W.made W.sound (flows_of (line_of command.now)) wires.old wires.new result }
        ensures downs { ForEachRun self.old (λ d attached h. AddsDownsOf (IsUnsoundFor (W.sound wires.old) (W.made wires.old) (flows_of (line_of command.now))) d h self.new) }
    {
        match command {
            Command::Flow { stream, turns } => stopped(self.flow(*stream, *turns, wires)),
            Command::Settle => went(self.settle()),
            _ => went(self.run(command)),
        }
    }

    // Runs a command that gives at most one entry.
    pub(crate) fn run(&mut self, command: &Command) -> Result<(), NodeFault>
        requires kept { IsKept self.old }
        requires can { CanRun self.old command.now }
        requires short { IsShort command.now }
        ensures { ForEachRun self.old (λ d attached h. Ends (line_of command.now) d attached h self.new result) }
    {
        match command {
            Command::Attach { stream } => self.attach(*stream),
            Command::Detach { stream } => {
                self.detach(*stream);
                Ok(())
            }
            Command::Send { stream } => self.send(*stream),
            Command::Checkpoint { stream } => self.checkpoint(*stream),
            Command::Deliver { stream, number } => self.deliver(*stream, *number),
            Command::Write { client, name, body } => self.write(*client, name, body.as_slice()),
            Command::Delete { client, name } => self.delete(*client, name),
            Command::Read { client, name } => self.read(*client, name),
            Command::Move { client, node } => self.move_client(*client, *node),
            Command::Cut { node } => self.cut(*node),
            Command::State { node } => self.state(*node),
            Command::Drop { node, name } => self.drop_body(*node, name),
            Command::Conflicts { node, name } => self.conflicts(*node, name),
            Command::Expect { .. } | Command::Phase | Command::End => Ok(()),
            Command::Flow { .. } | Command::Settle => unreachable!(),
        }
    }
}

// How a step stops that ended so.
pub(crate) fn stopped(ended: Result<Stop, NodeFault>) -> Result<Stop, NoMemory>
    ensures { IsStopOf ended result }
{
    match ended {
        Ok(stop) => Ok(stop),
        Err(NodeFault::Worn { at }) => Ok(Stop::Worn { at }),
        Err(NodeFault::NoMemory) => Err(NoMemory),
    }
}

// The same for what has no wire.
pub(crate) fn went(ended: Result<(), NodeFault>) -> Result<Stop, NoMemory>
    ensures { IsStopOf (went_of ended) result }
{
    match ended {
        Ok(()) => Ok(Stop::Went),
        Err(fault) => stopped(Err(fault)),
    }
}

/// A good command of a script can be run, where what is declared runs and the streams are attached that the script
/// says, and each command changes these streams as its line does.
pub fn good_commands_can_be_run()
    ensures can { GoodCanRun }
    ensures attached { AttachedTogether }
{}
