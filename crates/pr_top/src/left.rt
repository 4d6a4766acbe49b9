// The node that a run left.
ghost use Rattle.pr_node.specs.Stored.{means};
ghost use Rattle.pr_script.specs.Good.{IsGood};
ghost use Rattle.pr_script.specs.declared.script.Script.{Script};
ghost use Rattle.pr_story.specs.History.{NodeEntry};
ghost use Rattle.pr_text.specs.Numbers.{nodes_of};
ghost use Rattle.pr_text.specs.Transcripts.{plan_of};
ghost use Rattle.pr_story.specs.Scripts.{JobAfterJob};
ghost use Rattle.pr_top.specs.Progress.{HasCome};
ghost use Rattle.pr_top.specs.Served.{HasLeft, node_after};
ghost use Rattle.std.specs.Prelude.{◌≡◌, ◌<◌, [], List};

use crate::silent::run_silently;
use crate::stepping::{Halt, Run};
use pr_merge::Held;
use pr_node::Node;
use pr_script::Script;
use std::alloc::Global;

/// Runs a script in one thread, writes nothing, and gives its node of this number.
pub fn node_after(alloc: Global, script: &Script, number: u32) -> Result<Node, Halt>
    requires good { IsGood script.now }
    requires known { number < nodes_of script.now.decls.list }
    ensures { HasLeft script.now number result }
{
    let run = run_silently(alloc, script)?;
    Ok(node_of(run, number))
}

/// The node of this number, as the run left it, in constant time.
pub fn node_of(run: Run, number: u32) -> Node
    requires { (s : Script) × (h : List NodeEntry) × HasCome JobAfterJob s [] h run.engine run.unmet × (number < nodes_of s.decls.list) }
    ensures { (s : Script) (h : List NodeEntry) → HasCome JobAfterJob s [] h run.engine run.unmet → number < nodes_of s.decls.list → means result ≡ node_after (plan_of s.decls.list) h number }
{
    let mut engine = run.engine;
    match engine.take_node(number) {
        Some(node) => node,
        None => unreachable!(),
    }
}
