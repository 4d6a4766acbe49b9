// The asks of a script's node are written.
ghost use Rattle.pr_ports.specs.Faults.{HasRisen};
ghost use Rattle.pr_script.specs.Good.{IsGood};
ghost use Rattle.pr_text.specs.Numbers.{nodes_of};
ghost use Rattle.pr_top.specs.Answers.{AnswersAsk, ports_of};
ghost use Rattle.pr_top.specs.Asked.{HasAsked, HasAsks};
ghost use Rattle.std.specs.Prelude.{◌<◌};

use crate::Status;
use crate::asker::Asker;
use crate::left::node_of;
use crate::nodes::number_of;
use crate::reading::{ReadError, read_script};
use crate::running::write;
use crate::silent::run_silently;
use crate::stepping::Halt;
use pr_ports::{Sink, Source};
use pr_script::{Bytes, Script};
use std::alloc::Global;

/// Reads a script, runs it, and writes the asks of the node with this label.
pub fn ask<S: Source, K: Sink>(alloc: Global, label: &[u8], script: &mut S, out: &mut K) -> Status
    ensures { AnswersAsk label.now (ports_of S.left S.faults K.text K.faults script.old out.old) (ports_of S.left S.faults K.text K.faults script.new out.new) result }
{
    match read_script(alloc, script) {
        Ok(script) => match number_of(&script.decls, label) {
            Some(node) => write_asks(alloc, &script, node, out),
            None => Status::NoNode,
        },
        Err(ReadError::Failed) => Status::ReadFault,
        Err(ReadError::TooLarge) => Status::TooLarge,
        Err(ReadError::Bad { line, why }) => Status::BadScript { line, why },
        Err(ReadError::NoMemory) => Status::NoMemory,
    }
}

// Runs the script, and writes the asks of its node.
fn write_asks<K: Sink>(alloc: Global, script: &Script, node: u32, out: &mut K) -> Status
    requires good { IsGood script.now }
    requires known { node < nodes_of script.now.decls.list }
    ensures { HasAsked result script.now node (HasRisen (K.faults out.old) (K.faults out.new)) (K.text out.old) (K.text out.new) }
{
    match asks(alloc, script, node) {
        Ok(text) => match write(out, text.as_slice()) {
            Ok(()) => Status::Ok,
            Err(_) => Status::WriteFault,
        },
        Err(Halt::Worn { at }) => Status::Worn { at },
        Err(_) => Status::NoMemory,
    }
}

// The asks of the script's node after its run.
fn asks(alloc: Global, script: &Script, number: u32) -> Result<Bytes, Halt>
    requires good { IsGood script.now }
    requires known { number < nodes_of script.now.decls.list }
    ensures { HasAsks script.now number result }
{
    let run = run_silently(alloc, script)?;
    let node = node_of(run, number);
    let asker = Asker {
        number,
        node: &node,
    };
    Ok(asker.asks(alloc, script.decls.as_slice())?)
}
