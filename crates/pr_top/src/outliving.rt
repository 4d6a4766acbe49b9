// A run that is kept on a disk in memory, and what is told of it where the disk stops.
ghost use Rattle.pr_keep.specs.Files.{StandsFor};
ghost use Rattle.pr_keep.specs.Memory.{state_of};
ghost use Rattle.pr_ports.specs.Faults.{HasRisen};
ghost use Rattle.pr_script.specs.Good.{AreGoodDecls, IsGood};
ghost use Rattle.pr_script.specs.Labels.{AreLabels};
ghost use Rattle.pr_story.specs.History.{NodeEntry};
ghost use Rattle.pr_story.specs.Scripts.{JobAfterJob};
ghost use Rattle.pr_top.specs.Kept.{placed};
ghost use Rattle.pr_top.specs.Outlived.{HasOutlived, HasRunUntil};
ghost use Rattle.pr_top.specs.Resuming.{CanResume, HoldsRest, TellsHeld};
ghost use Rattle.pr_top.specs.Runs.{HasRun, all_sound};
ghost use Rattle.std.specs.Prelude.{◌≡◌, ◌≤◌, ◌+◌, List, Option, length, reverse, ℕ};

use crate::Status;
use crate::keeping::{KeptEnd, kept};
use crate::nodes::node_count;
use crate::reopening::{journals_of, reopened, tell_placed};
use crate::resuming::tell_states;
use crate::running::{Expected, close, tell_end, tell_halt};
use crate::stepping::Halt;
use pr_keep::MemoryDisk;
use pr_ports::Sink;
use pr_script::Script;
use std::alloc::Global;
use std::mem;

/// Runs a script as `kept` does, over a disk in memory that does not stop. What that disk holds goes back with the
/// program, in one piece.
pub fn keep_all<K: Sink>(alloc: Global, script: &Script, out: &mut K) -> Status
    requires { IsGood script.now }
    ensures { HasRun JobAfterJob all_sound result script.now (HasRisen (K.faults out.old) (K.faults out.new)) (K.text out.old) (K.text out.new) }
{
    let (end, disk) = kept(alloc, script, MemoryDisk::new(alloc, u64::MAX), out);
    // Asked for its promise alone: no more calls were good than its stop.
    let _ = disk.good();
    mem::forget(disk);
    match end {
        KeptEnd::Ended { status } => status,
        KeptEnd::Stopped { .. } => unreachable!(),
    }
}

/// Runs a script as `kept` does, over a disk in memory that answers so many calls, from 2 to 1,000,000,000, and then fails
/// each. Where it stops, what it holds is told: the lines that were not yet written, the state of each node, which is made
/// again of its entries, and `ok N`. The rest of the script is given up. Behind the run it takes time linear in what the disk
/// holds, and that of making each node again. What a disk that did not stop holds goes back with the program.
pub fn keep_until<K: Sink>(alloc: Global, script: &Script, stop: u64, out: &mut K) -> Status
    requires good { IsGood script.now }
    requires labels { AreLabels script.now.decls.list }
    requires least { 2 ≤ stop }
    requires most { stop ≤ 1000000000 }
    ensures { HasRunUntil stop result script.now (HasRisen (K.faults out.old) (K.faults out.new)) (K.text out.old) (K.text out.new) }
{
    let (end, disk) = kept(alloc, script, MemoryDisk::new(alloc, stop), out);
    // Asked for its promise alone: no more calls were good than its stop.
    let _ = disk.good();
    match end {
        KeptEnd::Ended { status } => {
            mem::forget(disk);
            status
        }
        KeptEnd::Stopped { lines, unmet } => outlive(alloc, script, disk, lines, unmet, out),
    }
}

// Tells what the disk holds, of which so many lines were written.
fn outlive<K: Sink>(
    alloc: Global,
    script: &Script,
    disk: MemoryDisk,
    lines: u64,
    unmet: Option<u64>,
    out: &mut K,
) -> Status
    requires good { IsGood script.now }
    requires labels { AreLabels script.now.decls.list }
    requires held { (stop : ℕ) × (stop ≤ 1000000000) × (before : Option (List ℕ)) × HoldsRest stop script.now disk lines unmet before (K.text out.old) }
    ensures { (stop risen : ℕ) (before : Option (List ℕ)) → stop ≤ 1000000000 → HoldsRest stop script.now disk lines unmet before (K.text out.old) → risen ≤ K.faults out.old → HasOutlived stop result script.now (HasRisen risen (K.faults out.new)) before (K.text out.new) }
{
    match tell_held(alloc, script, disk, lines, unmet, out) {
        Ok(expected) => tell_end(&expected, out),
        Err(halt) => tell_halt(alloc, &script.decls, halt, out),
    }
}

// Writes the lines of what the disk holds behind those that were written, the nodes' states, and the `ok` line.
fn tell_held<K: Sink>(
    alloc: Global,
    script: &Script,
    disk: MemoryDisk,
    lines: u64,
    unmet: Option<u64>,
    out: &mut K,
) -> Result<Option<Expected>, Halt>
    requires good { AreGoodDecls script.now.decls.list }
    requires labels { AreLabels script.now.decls.list }
    requires held { (h : List NodeEntry) × (told : ℕ) × CanResume script.now.decls.list h × StandsFor (state_of disk).synced (placed (reverse h)) × (told ≤ length h) × (lines ≡ length script.now.decls.list + told) }
    ensures told { (h : List NodeEntry) (told : ℕ) → CanResume script.now.decls.list h → StandsFor (state_of disk).synced (placed (reverse h)) → told ≤ length h → lines ≡ length script.now.decls.list + told → TellsHeld script.now.decls.list h told unmet (HasRisen (K.faults out.old) (K.faults out.new)) (K.text out.old) (K.text out.new) result }
    ensures rises { K.faults out.old ≤ K.faults out.new }
{
    let decls = script.decls.as_slice();
    let told = lines as usize - decls.len();
    let (mut keep, entries) = reopened(alloc, disk)?;
    tell_placed(alloc, &script.decls, &entries.as_slice()[told..], out)?;
    let held = entries.len();
    let nodes = node_count(&script.decls);
    let journals = journals_of(alloc, nodes, entries)?;
    tell_states(alloc, &script.decls, journals, &mut keep, out)?;
    close(alloc, decls.len() + held + nodes as usize, unmet, out)
}
