// A generated script is run, and told by its summary.
ghost use Rattle.pr_gen.specs.Workload.{workload};
ghost use Rattle.pr_ports.specs.Faults.{HasRisen};
ghost use Rattle.pr_top.specs.Generated.{HasGenerated, HasSummed};
ghost use Rattle.std.specs.Prelude.{◌≤◌};

use crate::Status;
use crate::running::write;
use crate::silent::run_silently;
use crate::stepping::Halt;
use crate::telling::tell;
use pr_gen::{script, summary};
use pr_ports::Sink;
use pr_script::Bytes;
use pr_stamps::Seq;
use std::alloc::Global;
use std::mem;

/// Runs the generated script of a seed and a size in one thread, and writes the summary of its history.
pub fn generate<K: Sink>(alloc: Global, seed: u64, size: u64, out: &mut K) -> Status
    requires { size ≤ 90000 }
    ensures run { HasGenerated result (workload seed size) (HasRisen (K.faults out.old) (K.faults out.new)) (K.text out.old) (K.text out.new) }
    ensures rises { K.faults out.old ≤ K.faults out.new }
{
    match summed(alloc, seed, size) {
        Ok(text) => match write(out, text.as_slice()) {
            Ok(()) => Status::Ok,
            Err(_) => Status::WriteFault,
        },
        Err(Halt::Worn { at }) => tell(out, Status::Worn { at }, b"error worn\n"),
        Err(_) => tell(out, Status::NoMemory, b"error no memory\n"),
    }
}

// The summary of the run. The script and what the run holds go back with the program, in one piece, as at the end of
// `sim`.
fn summed(alloc: Global, seed: u64, size: u64) -> Result<Bytes, Halt>
    requires { size ≤ 90000 }
    ensures { HasSummed (workload seed size) result }
{
    let script = script(alloc, seed, size)?;
    let run = run_silently(alloc, &script)?;
    let mut text = Seq::new(alloc);
    let told = summary(&script.decls, &run.engine, &mut text);
    mem::forget(run);
    mem::forget(script);
    told?;
    Ok(text)
}
