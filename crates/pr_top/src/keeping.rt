// A script is run, and each entry kept on a disk before its line is written.
ghost use Rattle.pr_keep.specs.Calls.{IsNotDamaged};
ghost use Rattle.pr_keep.specs.Keeping.{Keeps};
ghost use Rattle.pr_ports.specs.Faults.{HasRisen};
ghost use Rattle.pr_script.specs.Good.{IsGood};
ghost use Rattle.pr_sim.specs.Making.{declared_of};
ghost use Rattle.pr_sim.specs.Running.{Tells};
ghost use Rattle.pr_story.specs.Counts.{Declared};
ghost use Rattle.pr_story.specs.History.{NodeEntry};
ghost use Rattle.pr_story.specs.Scripts.{JobAfterJob};
ghost use Rattle.pr_top.specs.Downs.{TellsTrueDowns};
ghost use Rattle.pr_top.specs.Kept.{HasRunKept, placed};
ghost use Rattle.pr_top.specs.KeptProgress.{HasEndedSo, HasKeptAll, HasKeptFrom, HasKeptTold, EndsHalted, IsUnmade, break_of};
ghost use Rattle.pr_top.specs.Progress.{HasCome};
ghost use Rattle.pr_top.specs.Runs.{all_sound};
ghost use Rattle.pr_top.specs.declared.keeping.Break.TheVariants as breaks;
ghost use Rattle.std.specs.Prelude.{◌≡◌, ◌≤◌, [], List, length, reverse, take};

use crate::Status;
use crate::running::{Expected, begin, end, tell_end, tell_from, tell_halt};
use crate::stepping::{Halt, Run};
use crate::telling::tell;
use pr_keep::{Disk, Keep, KeepFault, KeepRefused};
use pr_ports::Sink;
use pr_script::{Decls, Script};
use pr_sim::Engine;
use pr_stamps::Seq;
use pr_text::ClockTexts;
use std::alloc::Global;
use std::mem;

/// How a kept run ended.
#[derive(Drop)]
pub enum KeptEnd {
    /// As a run without a disk does.
    Ended { status: Status },
    /// The disk failed. So many lines were written whole, and nothing past them; `unmet` is the line of the first
    /// expectation that was judged and not met.
    Stopped { lines: u64, unmet: Option<u64> },
}

/// Why a kept run did not come to the end of its script.
#[derive(Drop)]
pub enum Break {
    Halted(Halt),
    /// The disk failed where the lines of so many entries were written.
    Stopped { told: usize, unmet: Option<u64> },
}

impl From<Halt> for Break {
    ghost from_gives = { λ halt result. result ≡ breaks.Halted halt };

    fn from(halt: Halt) -> Break {
        Break::Halted(halt)
    }
}

/// Makes a file on an empty disk, and then runs the script in one thread: each command's entries are kept one by one, in
/// the order of the history, before any of their lines is written. It ends where the script does, or at the first call
/// that the disk fails. It takes the time of the run, and of four calls of the disk for each entry. What a run that
/// came to its end holds is not given back: it goes with the program.
pub fn kept<D: Disk, K: Sink>(alloc: Global, script: &Script, disk: D, out: &mut K) -> (KeptEnd, D)
    requires good { IsGood script.now }
    requires empty { (D.state disk).reads ≡ [] }
    ensures run { HasRunKept D.state D.images D.moment D.images_since disk result.1 result.0 script.now (HasRisen (K.faults out.old) (K.faults out.new)) (K.text out.old) (K.text out.new) }
    ensures rises { K.faults out.old ≤ K.faults out.new }
{
    match Keep::format(alloc, disk) {
        Ok(mut keep) => {
            let end = run_kept(alloc, script, &mut keep, out);
            (end, keep.close())
        }
        Err(KeepRefused { disk, fault }) => {
            let end = unmade(fault, out);
            (end, disk)
        }
    }
}

// Where no file was made, nothing is run.
fn unmade<K: Sink>(fault: KeepFault, out: &mut K) -> KeptEnd
    requires { IsNotDamaged fault }
    ensures end { IsUnmade (HasRisen (K.faults out.old) (K.faults out.new)) fault (K.text out.old) (K.text out.new) result }
    ensures rises { K.faults out.old ≤ K.faults out.new }
{
    match fault {
        KeepFault::Failed => KeptEnd::Stopped {
            lines: 0,
            unmet: None,
        },
        KeepFault::NoMemory => {
            let status = tell(out, Status::NoMemory, b"error no memory\n");
            KeptEnd::Ended { status }
        }
        KeepFault::Damaged { .. } => unreachable!(),
    }
}

// Runs a script over a file of no entry.
fn run_kept<D: Disk, K: Sink>(
    alloc: Global,
    script: &Script,
    keep: &mut Keep<D>,
    out: &mut K,
) -> KeptEnd
    requires good { IsGood script.now }
    requires kept { Keeps D.state D.images keep.old [] }
    ensures run { HasEndedSo D.state D.images D.moment D.images_since keep.old keep.new script.now (HasRisen (K.faults out.old) (K.faults out.new)) (K.text out.old) (K.text out.new) result }
    ensures rises { K.faults out.old ≤ K.faults out.new }
{
    match transcript(alloc, script, keep, out) {
        Ok(expected) => {
            let status = tell_end(&expected, out);
            KeptEnd::Ended { status }
        }
        Err(Break::Halted(halt)) => halted(alloc, &script.decls, halt, out),
        Err(Break::Stopped { told, unmet }) => {
            let heads = script.decls.as_slice().len() as u64;
            let lines = heads.saturating_add(told as u64);
            KeptEnd::Stopped { lines, unmet }
        }
    }
}

// Tells why the run halted.
fn halted<K: Sink>(alloc: Global, decls: &Decls, halt: Halt, out: &mut K) -> KeptEnd
    ensures halt { EndsHalted decls.now.list (HasRisen (K.faults out.old) (K.faults out.new)) halt (K.text out.old) (K.text out.new) result }
    ensures rises { K.faults out.old ≤ K.faults out.new }
{
    let status = tell_halt(alloc, decls, halt, out);
    KeptEnd::Ended { status }
}

// Writes the transcript up to its `ok` line, each entry kept before its line. What a run that came to its end holds
// goes back with the program, in one piece.
fn transcript<D: Disk, K: Sink>(
    alloc: Global,
    script: &Script,
    keep: &mut Keep<D>,
    out: &mut K,
) -> Result<Option<Expected>, Break>
    requires good { IsGood script.now }
    requires kept { Keeps D.state D.images keep.old [] }
    ensures told { HasKeptTold D.state D.images D.moment D.images_since keep.old keep.new script.now (HasRisen (K.faults out.old) (K.faults out.new)) (K.text out.old) (K.text out.new) result }
    ensures rises { K.faults out.old ≤ K.faults out.new }
{
    let mut run = begin(alloc, script, out)?;
    commands(alloc, script, &mut run, keep, out)?;
    let told = end(alloc, script, &run, out);
    mem::forget(run);
    Ok(told?)
}

// Runs all commands. Each one's entries are kept, and then their lines written, before the next runs.
fn commands<D: Disk, K: Sink>(
    alloc: Global,
    script: &Script,
    run: &mut Run,
    keep: &mut Keep<D>,
    out: &mut K,
) -> Result<(), Break>
    requires come { HasCome JobAfterJob script.now script.now.commands [] run.old.engine run.old.unmet }
    requires kept { Keeps D.state D.images keep.old [] }
    ensures run { HasKeptAll D.state D.images D.moment D.images_since keep.old keep.new script.now (HasRisen (K.faults out.old) (K.faults out.new)) (K.text out.old) (K.text out.new) run.new.engine run.new.unmet result }
    ensures downs { TellsTrueDowns all_sound script.now run.new.engine }
    ensures rises { K.faults out.old ≤ K.faults out.new }
{
    let list = script.commands.as_slice();
    let decls = &script.decls;
    let mut clocks = ClockTexts::new(alloc);
    let mut text = Seq::new(alloc);
    let mut told = 0;
    let mut at = 0;
    while at < list.len() {
        let step = run.step(&list[at], &list[at + 1..]);
        keep_from(&run.engine, told, run.unmet, keep)?;
        told = tell_from(decls, &mut clocks, &run.engine, told, &mut text, out)?;
        at += step? + 1;
    }
    Ok(())
}

// Keeps the entries from this place on, the oldest first.
fn keep_from<D: Disk>(
    engine: &Engine,
    told: usize,
    unmet: Option<u64>,
    keep: &mut Keep<D>,
) -> Result<(), Break>
    requires { (d : Declared) × (h : List NodeEntry) × Tells d h engine.now × (told ≤ length h) × Keeps D.state D.images keep.old (take told (placed (reverse h))) }
    ensures { (d : Declared) (h : List NodeEntry) → Tells d h engine.now → told ≤ length h → Keeps D.state D.images keep.old (take told (placed (reverse h))) → HasKeptFrom D.state D.images D.moment D.images_since keep.old keep.new (placed (reverse h)) told unmet result }
{
    let len = engine.history().len();
    for at in told..len {
        match keep.append(engine.node_of(at), engine.entry(at)) {
            Ok(()) => {}
            Err(fault) => return Err(broken(fault, told, unmet)),
        }
    }
    Ok(())
}

// How a run breaks off where an entry was not kept.
fn broken(fault: KeepFault, told: usize, unmet: Option<u64>) -> Break
    ensures { result ≡ break_of fault told unmet }
{
    match fault {
        KeepFault::Failed => Break::Stopped { told, unmet },
        _ => Break::Halted(Halt::NoMemory),
    }
}
