// The script of a seed and a size.
ghost use Rattle.pr_gen.specs.Topology as topology;
ghost use Rattle.pr_gen.specs.Workload.{drawn, numbered, workload};
ghost use Rattle.pr_script.specs.Good.{IsGood};
ghost use Rattle.pr_script.specs.Labels.{AreLabels};
ghost use Rattle.pr_script.specs.declared.command.Command.TheVariants as commands_of;
ghost use Rattle.std.specs.Prelude.{◌≡◌, ◌≤◌, ◌++◌, IfOk, OnOk};

use crate::draws::seeded;
use crate::steps::step;
use crate::topology::declared;
use pr_script::{Command, Script};
use pr_stamps::{NoMemory, Seq};
use std::alloc::Global;

/// The line of the first command: 32 declarations stand before it.
const FIRST: u64 = 33;

/// The number of streams, each of which has a line that attaches it.
const STREAMS: u32 = 16;

/// The line of the first step.
const FIRST_STEP: u64 = 49;

/// The script of a workload, drawn from the words of `rand_pcg`'s `Lcg64Xsh32` at this seed: eight nodes in a ring, each
/// with a client and with streams to and from its neighbours, all attached, so many steps, and a settle (docs/SCRIPT.md
/// lists the draws). A seed and a size have one script, which is good for a run as an accepted one is. The size is at
/// most 90,000. It takes time and memory linear in the size.
pub fn script(alloc: Global, seed: u64, size: u64) -> Result<Script, NoMemory>
    requires { size ≤ 90000 }
    ensures script { IfOk result (λ s. s ≡ workload seed size) }
    ensures labels { IfOk result (λ s. AreLabels s.decls.list) }
    ensures good { IfOk result (λ s. IsGood s) }
{
    let decls = declared(alloc)?;
    let mut commands = Seq::new(alloc);
    attached(&mut commands)?;
    stepped(alloc, seed, size, &mut commands)?;
    Ok(Script { decls, commands })
}

// Adds a line for each stream.
fn attached(commands: &mut Seq<(u64, Command)>) -> Result<(), NoMemory>
    ensures { OnOk result (commands.new ≡ commands.old ++ numbered 33 (topology.each 16 commands_of.Attach)) }
{
    for stream in 0..STREAMS {
        let line = FIRST + u64::from(stream);
        commands.push((line, Command::Attach { stream }))?;
    }
    Ok(())
}

// Adds the drawn steps, and the settle behind them.
fn stepped(
    alloc: Global,
    seed: u64,
    size: u64,
    commands: &mut Seq<(u64, Command)>,
) -> Result<(), NoMemory>
    requires { size ≤ 90000 }
    ensures { OnOk result (commands.new ≡ commands.old ++ numbered 49 (drawn seed size)) }
{
    let mut words = seeded(seed);
    for i in 0..size {
        let command = step(alloc, &mut words)?;
        commands.push((FIRST_STEP + i, command))?;
    }
    commands.push((FIRST_STEP + size, Command::Settle))
}
