// A script is run, and its transcript written as the lines come.
ghost use Rattle.pr_ports.specs.Faults.{HasRisen};
ghost use Rattle.pr_script.specs.Good.{IsGood};
ghost use Rattle.pr_script.specs.declared.script.Script.{Script};
ghost use Rattle.pr_sim.specs.Making.{declared_of};
ghost use Rattle.pr_sim.specs.Running.{Tells};
ghost use Rattle.pr_story.specs.History.{NodeEntry};
ghost use Rattle.pr_story.specs.Scripts.{JobAfterJob, Order};
ghost use Rattle.pr_text.specs.Endings.{ok_line};
ghost use Rattle.pr_text.specs.Lines.{line_text};
ghost use Rattle.pr_text.specs.Texts.{AreOfNodes};
ghost use Rattle.pr_top.specs.Downs.{TellsTrueDowns};
ghost use Rattle.pr_top.specs.Progress.{HasCome, HasRunAll, HasTold, IsExpected, Writes, entry_lines};
ghost use Rattle.pr_top.specs.Runs.{HasRun, HasRunTo, IsToEnd, all_sound};
ghost use Rattle.pr_top.specs.Unended.{HasBegunWell, HasRunUnended, HasRunUnendedTo, TellsEnd, TellsHalt};
ghost use Rattle.pr_top.specs.declared.stepping.Halt.TheVariants as halts;
ghost use Rattle.std.specs.Prelude.{◌≡◌, ◌≤◌, ◌<◌, ◌+◌, [], ℕ, Bool, Err, IfErr, IfOk, List, Option, drop, length, reverse, slice_index_or};

use crate::Status;
use crate::stepping::{Halt, Run};
use crate::telling::{no_memory, tell, tell_lie};
use crate::writing::write_all;
use pr_ports::Sink;
use pr_script::{Bytes, Decls, Script};
use pr_sim::Engine;
use pr_stamps::{NoMemory, Seq};
use pr_story::Event;
use pr_text::{ClockTexts, heads, line, next_line, ok, unmet};
use std::alloc::Global;
use std::mem;

/// Runs a script in one thread, and writes its transcript: the head lines first, and each command's lines before the next
/// command runs.
pub fn run<K: Sink>(alloc: Global, script: &Script, out: &mut K) -> Status
    requires { IsGood script.now }
    ensures run { HasRun JobAfterJob all_sound result script.now (HasRisen (K.faults out.old) (K.faults out.new)) (K.text out.old) (K.text out.new) }
    ensures rises { K.faults out.old ≤ K.faults out.new }
{
    let ended = unended(alloc, script, out);
    finish(alloc, script, ended, out)
}

/// Ends the transcript of a run, and answers how it ended.
pub fn finish<K: Sink>(
    alloc: Global,
    script: &Script,
    ended: Result<Run, Halt>,
    out: &mut K,
) -> Status
    requires { IfOk ended (λ run. (order : Order) × (h : List NodeEntry) × HasCome order script.now [] h run.engine run.unmet) }
    ensures run { (order : Order) (sound : ℕ → Bool) (h : List NodeEntry) (before : Option (List ℕ)) (risen : ℕ) → risen ≤ K.faults out.old → HasRunUnendedTo order sound script.now h (HasRisen risen (K.faults out.old)) before (K.text out.old) ended → HasRunTo order sound result script.now h (HasRisen risen (K.faults out.new)) before (K.text out.new) }
    ensures stops { IfErr ended (λ halt. ¬ IsToEnd result) }
    ensures rises { K.faults out.old ≤ K.faults out.new }
{
    match transcript(alloc, script, ended, out) {
        Ok(expected) => tell_end(&expected, out),
        Err(halt) => tell_halt(alloc, &script.decls, halt, out),
    }
}

/// Writes the line of what was not met, where that is something.
pub fn tell_end<K: Sink>(expected: &Option<Expected>, out: &mut K) -> Status
    ensures told { TellsEnd expected.now result (HasRisen (K.faults out.old) (K.faults out.new)) (K.text out.old) (K.text out.new) }
    ensures rises { K.faults out.old ≤ K.faults out.new }
{
    match expected {
        None => Status::Ok,
        Some(expected) => {
            let line = expected.line;
            tell(out, Status::Unmet { line }, expected.text.as_slice())
        }
    }
}

/// Writes the last line of a run that stopped so.
pub fn tell_halt<K: Sink>(alloc: Global, decls: &Decls, halt: Halt, out: &mut K) -> Status
    ensures told { TellsHalt decls.now.list halt result (HasRisen (K.faults out.old) (K.faults out.new)) (K.text out.old) (K.text out.new) }
    ensures rises { K.faults out.old ≤ K.faults out.new }
{
    match halt {
        Halt::WriteFault => Status::WriteFault,
        Halt::Worn { at } => tell(out, Status::Worn { at }, b"error worn\n"),
        Halt::Lied {
            stream,
            number,
            sent,
            got,
        } => tell_lie(alloc, decls, stream, number, sent, got, out),
        Halt::NoMemory => no_memory(out),
    }
}

/// The first expectation that was not met: its line, and the line that tells it.
#[derive(Drop)]
pub struct Expected {
    pub line: u64,
    pub text: Bytes,
}

// Writes the `ok` line of a run that came to its end. What the run holds goes back with the program, in one piece: entry
// by entry it would take its part of the time.
fn transcript<K: Sink>(
    alloc: Global,
    script: &Script,
    ended: Result<Run, Halt>,
    out: &mut K,
) -> Result<Option<Expected>, Halt>
    requires { IfOk ended (λ run. (order : Order) × (h : List NodeEntry) × HasCome order script.now [] h run.engine run.unmet) }
    ensures told { (order : Order) (sound : ℕ → Bool) (h : List NodeEntry) (before : Option (List ℕ)) (risen : ℕ) → risen ≤ K.faults out.old → HasRunUnendedTo order sound script.now h (HasRisen risen (K.faults out.old)) before (K.text out.old) ended → HasTold order sound script.now h (HasRisen risen (K.faults out.new)) before (K.text out.new) result }
    ensures stops { IfErr ended (λ halt. result ≡ Err halt) }
    ensures rises { K.faults out.old ≤ K.faults out.new }
{
    let run = ended?;
    let told = end(alloc, script, &run, out);
    mem::forget(run);
    told
}

/// Runs a script in one thread, and writes its transcript up to its `ok` line: the head lines first, and each command's
/// lines before the next command runs.
pub fn unended<K: Sink>(alloc: Global, script: &Script, out: &mut K) -> Result<Run, Halt>
    requires { IsGood script.now }
    ensures told { HasRunUnended JobAfterJob all_sound script.now (HasRisen (K.faults out.old) (K.faults out.new)) (K.text out.old) (K.text out.new) result }
    ensures rises { K.faults out.old ≤ K.faults out.new }
{
    let mut run = begin(alloc, script, out)?;
    commands(alloc, script, &mut run, out)?;
    Ok(run)
}

/// Writes the head lines, and makes the engine.
pub fn begin<K: Sink>(alloc: Global, script: &Script, out: &mut K) -> Result<Run, Halt>
    requires { IsGood script.now }
    ensures begun { HasBegunWell script.now (HasRisen (K.faults out.old) (K.faults out.new)) (K.text out.old) (K.text out.new) result }
    ensures rises { K.faults out.old ≤ K.faults out.new }
{
    let mut text = Seq::new(alloc);
    heads(alloc, &script.decls, &mut text)?;
    write(out, text.as_slice())?;
    let engine = Engine::new(alloc, &script.decls)?;
    Ok(Run {
        engine,
        unmet: None,
    })
}

// Runs all commands, and writes each one's lines before the next runs.
fn commands<K: Sink>(alloc: Global, script: &Script, run: &mut Run, out: &mut K) -> Result<(), Halt>
    requires { HasCome JobAfterJob script.now script.now.commands [] run.old.engine run.old.unmet }
    ensures run { HasRunAll JobAfterJob all_sound script.now (HasRisen (K.faults out.old) (K.faults out.new)) (K.text out.old) (K.text out.new) run.new.engine run.new.unmet result }
    ensures downs { TellsTrueDowns all_sound script.now run.new.engine }
    ensures rises { K.faults out.old ≤ K.faults out.new }
{
    let list = script.commands.as_slice();
    let decls = &script.decls;
    let mut clocks = ClockTexts::new(alloc);
    let mut text = Seq::new(alloc);
    let mut told = 0;
    let mut at = 0;
    while at < list.len() {
        let step = run.step(&list[at], &list[at + 1..]);
        told = tell_from(decls, &mut clocks, &run.engine, told, &mut text, out)?;
        at += step? + 1;
    }
    Ok(())
}

/// Writes the lines of the entries from this place on, each made in place of what `text` had, and answers how many entries
/// there are.
pub fn tell_from<K: Sink>(
    decls: &Decls,
    clocks: &mut ClockTexts,
    engine: &Engine,
    told: usize,
    text: &mut Bytes,
    out: &mut K,
) -> Result<usize, Halt>
    requires nodes { AreOfNodes decls.now.list clocks.old }
    requires held { (h : List NodeEntry) × Tells (declared_of decls.now.list) h engine.now × (told ≤ length h) }
    ensures told { (h : List NodeEntry) → Tells (declared_of decls.now.list) h engine.now → Writes (entry_lines decls.now.list (drop told (reverse h))) (HasRisen (K.faults out.old) (K.faults out.new)) (K.text out.old) (K.text out.new) result }
    ensures count { (h : List NodeEntry) → Tells (declared_of decls.now.list) h engine.now → IfOk result (λ n. n ≡ length h) }
    ensures nodes { AreOfNodes decls.now.list clocks.new }
    ensures rises { K.faults out.old ≤ K.faults out.new }
{
    let len = engine.history().len();
    for at in told..len {
        tell_entry(decls, clocks, engine, at, text, out)?;
    }
    Ok(len)
}

// Writes the line of the entry at this place.
fn tell_entry<K: Sink>(
    decls: &Decls,
    clocks: &mut ClockTexts,
    engine: &Engine,
    at: usize,
    text: &mut Bytes,
    out: &mut K,
) -> Result<(), Halt>
    requires nodes { AreOfNodes decls.now.list clocks.old }
    requires held { (h : List NodeEntry) × Tells (declared_of decls.now.list) h engine.now × (at < length h) }
    ensures told { (h : List NodeEntry) (e : NodeEntry) → Tells (declared_of decls.now.list) h engine.now → at < length h → Writes (line_text decls.now.list (slice_index_or (reverse h) at e).node (slice_index_or (reverse h) at e).entry.event) (HasRisen (K.faults out.old) (K.faults out.new)) (K.text out.old) (K.text out.new) result }
    ensures nodes { AreOfNodes decls.now.list clocks.new }
    ensures rises { K.faults out.old ≤ K.faults out.new }
{
    tell_next(
        decls,
        clocks,
        engine.node_of(at),
        &engine.entry(at).event,
        text,
        out,
    )
}

// Writes the line of an event at the node as `tell_line` does, and keeps texts of clocks for the lines to come.
fn tell_next<K: Sink>(
    decls: &Decls,
    clocks: &mut ClockTexts,
    node: u32,
    event: &Event,
    text: &mut Bytes,
    out: &mut K,
) -> Result<(), Halt>
    requires { AreOfNodes decls.now.list clocks.old }
    ensures told { Writes (line_text decls.now.list node event.now) (HasRisen (K.faults out.old) (K.faults out.new)) (K.text out.old) (K.text out.new) result }
    ensures nodes { AreOfNodes decls.now.list clocks.new }
    ensures rises { K.faults out.old ≤ K.faults out.new }
{
    next_line(decls, clocks, node, event, text)?;
    write(out, text.as_slice())
}

/// Writes the line of an event at the node, made in place of what `text` had.
pub fn tell_line<K: Sink>(
    decls: &Decls,
    node: u32,
    event: &Event,
    text: &mut Bytes,
    out: &mut K,
) -> Result<(), Halt>
    ensures told { Writes (line_text decls.now.list node event.now) (HasRisen (K.faults out.old) (K.faults out.new)) (K.text out.old) (K.text out.new) result }
    ensures rises { K.faults out.old ≤ K.faults out.new }
{
    line(decls, node, event, text)?;
    write(out, text.as_slice())
}

/// Writes the `ok` line, and makes the line of what was not met.
pub fn end<K: Sink>(
    alloc: Global,
    script: &Script,
    run: &Run,
    out: &mut K,
) -> Result<Option<Expected>, Halt>
    requires { (order : Order) × (h : List NodeEntry) × HasCome order script.now [] h run.now.engine run.now.unmet }
    ensures told { (h : List NodeEntry) → Tells (declared_of script.now.decls.list) h run.now.engine → Writes (ok_line (length script.now.decls.list + length h)) (HasRisen (K.faults out.old) (K.faults out.new)) (K.text out.old) (K.text out.new) result }
    ensures unmet { IfOk result (IsExpected run.now.unmet) }
    ensures kept { result ≡ Err halts.NoMemory → K.text out.new ≡ K.text out.old }
    ensures rises { K.faults out.old ≤ K.faults out.new }
{
    let lines = script.decls.as_slice().len() + run.engine.history().len();
    close(alloc, lines, run.unmet, out)
}

/// Writes the `ok` line behind so many lines, and makes the line of what was not met.
pub fn close<K: Sink>(
    alloc: Global,
    lines: usize,
    unmet: Option<u64>,
    out: &mut K,
) -> Result<Option<Expected>, Halt>
    ensures told { Writes (ok_line lines) (HasRisen (K.faults out.old) (K.faults out.new)) (K.text out.old) (K.text out.new) result }
    ensures unmet { IfOk result (IsExpected unmet) }
    ensures kept { result ≡ Err halts.NoMemory → K.text out.new ≡ K.text out.old }
    ensures rises { K.faults out.old ≤ K.faults out.new }
{
    let mut last = Seq::new(alloc);
    ok(lines as u64, &mut last)?;
    let expected = to_tell(alloc, unmet)?;
    write(out, last.as_slice())?;
    Ok(expected)
}

/// What is to be told of the first expectation that was not met.
pub fn to_tell(alloc: Global, line: Option<u64>) -> Result<Option<Expected>, NoMemory>
    ensures { IfOk result (IsExpected line) }
{
    match line {
        None => Ok(None),
        Some(line) => {
            let mut text = Seq::new(alloc);
            unmet(line, &mut text)?;
            Ok(Some(Expected { line, text }))
        }
    }
}

/// Writes a text; a sink that fails ends the run.
pub fn write<K: Sink>(out: &mut K, text: &[u8]) -> Result<(), Halt>
    ensures fault { IfErr result (λ halt. halt ≡ halts.WriteFault) }
    ensures told { Writes text.now (HasRisen (K.faults out.old) (K.faults out.new)) (K.text out.old) (K.text out.new) result }
    ensures rises { K.faults out.old ≤ K.faults out.new }
{
    match write_all(out, text) {
        Ok(()) => Ok(()),
        Err(_) => Err(Halt::WriteFault),
    }
}
