// A script is run without its lines.
ghost use Rattle.pr_script.specs.Good.{IsGood};
ghost use Rattle.pr_story.specs.Scripts.{JobAfterJob};
ghost use Rattle.pr_top.specs.Progress.{HasCome};
ghost use Rattle.pr_top.specs.Silent.{HasEnded, HasRunSo};
ghost use Rattle.std.specs.Prelude.{[]};

use crate::stepping::{Halt, Run};
use pr_script::Script;
use pr_sim::Engine;
use std::alloc::Global;

/// Runs a script in one thread, and writes nothing.
pub fn run_silently(alloc: Global, script: &Script) -> Result<Run, Halt>
    requires { IsGood script.now }
    ensures { HasEnded script.now result }
{
    let engine = Engine::new(alloc, &script.decls)?;
    let mut run = Run {
        engine,
        unmet: None,
    };
    run_all(script, &mut run)?;
    Ok(run)
}

// Runs all commands.
fn run_all(script: &Script, run: &mut Run) -> Result<(), Halt>
    requires { HasCome JobAfterJob script.now script.now.commands [] run.old.engine run.old.unmet }
    ensures { HasRunSo script.now run.new.engine run.new.unmet result }
{
    let list = script.commands.as_slice();
    let mut at = 0;
    while at < list.len() {
        at += run.step(&list[at], &list[at + 1..])? + 1;
    }
    Ok(())
}
