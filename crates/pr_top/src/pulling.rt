// The messages behind a script are pulled.
ghost use Rattle.pr_node.specs.Stored.{means};
ghost use Rattle.pr_ports.specs.Faults.{HasRisen};
ghost use Rattle.pr_script.specs.Good.{IsGood};
ghost use Rattle.pr_script.specs.Labels.{AreLabels};
ghost use Rattle.pr_serve.specs.declared.serve_fault.ServeFault.TheVariants as faults;
ghost use Rattle.pr_story.specs.History.{NodeEntry};
ghost use Rattle.pr_text.specs.Numbers.{nodes_of};
ghost use Rattle.pr_story.specs.Scripts.{JobAfterJob};
ghost use Rattle.pr_top.specs.Answers.{AnswersPull, ports_of};
ghost use Rattle.pr_top.specs.Progress.{HasCome, Writes, entry_lines};
ghost use Rattle.pr_top.specs.Pulled.{EndsPull, HasPulled, IsClosed, IsOkTold, PullsFrom, bytes_cause, entries_at};
ghost use Rattle.pr_text.specs.Endings.{error_line};
ghost use Rattle.pr_top.specs.Runs.{WritesLine, told_text};
ghost use Rattle.std.specs.Io.KnownBytes.{Appends, prepend_known};
ghost use Rattle.std.specs.Prelude.{◌≡◌, ◌≢◌, ◌⊎◌, ◌<◌, ◌≤◌, ◌+◌, ◌++◌, ◌^◌, [], Err, IfOk, List, OnOk, Option, codes, drop, length, reverse, ℕ};

use crate::Status;
use crate::fronts::{Front, read_front};
use crate::left::node_of;
use crate::nodes::{node_count, number_of};
use crate::reading::ReadError;
use crate::running::{tell_halt, tell_line, unended, write};
use crate::stepping::{Halt, Run};
use crate::streams::streams_to;
use crate::telling::{no_memory, tell, tell_bad};
use pr_node::Node;
use pr_ports::{Sink, Source};
use pr_script::{Bytes, Decls};
use pr_serve::{ServeFault, pull_rest};
use pr_stamps::{NoMemory, Seq};
use pr_story::Journal;
use pr_text::{ok, push_number};
use std::alloc::Global;

/// Reads a script up to a byte 0, runs it and writes its lines, gives the node with this label the messages behind it, and
/// writes the lines of what it took in, and `ok N`.
pub fn pull<S: Source, K: Sink>(alloc: Global, label: &[u8], source: &mut S, out: &mut K) -> Status
    ensures { AnswersPull label.now (ports_of S.left S.faults K.text K.faults source.old out.old) (ports_of S.left S.faults K.text K.faults source.new out.new) result }
{
    match read_front(alloc, source) {
        Ok(front) => match number_of(&front.script.decls, label) {
            Some(node) => pull_front(alloc, &front, node, source, out),
            None => tell(out, Status::NoNode, b"error no node\n"),
        },
        Err(ReadError::Failed) => tell(out, Status::ReadFault, b"error read\n"),
        Err(ReadError::TooLarge) => tell(out, Status::TooLarge, b"error too large\n"),
        Err(ReadError::Bad { line, why }) => tell_bad(alloc, out, line, why),
        Err(ReadError::NoMemory) => no_memory(out),
    }
}

// Runs the script, and pulls what is behind it at its node of this number.
fn pull_front<S: Source, K: Sink>(
    alloc: Global,
    front: &Front,
    number: u32,
    source: &mut S,
    out: &mut K,
) -> Status
    requires good { IsGood front.now.script }
    requires labels { AreLabels front.now.script.decls.list }
    requires known { number < nodes_of front.now.script.decls.list }
    requires few { length front.now.ahead ≤ 4096 }
    ensures { EndsPull result front.now.script number (prepend_known front.now.ahead (S.left source.old)) (S.faults source.old) (S.left source.new) (S.faults source.new) (HasRisen (K.faults out.old) (K.faults out.new)) (K.text out.old) (K.text out.new) }
{
    match unended(alloc, &front.script, out) {
        Ok(run) => pull_behind(alloc, front, run, number, source, out),
        Err(halt) => tell_halt(alloc, &front.script.decls, halt, out),
    }
}

// Pulls at the node as the run left it, and ends the transcript.
fn pull_behind<S: Source, K: Sink>(
    alloc: Global,
    front: &Front,
    run: Run,
    number: u32,
    source: &mut S,
    out: &mut K,
) -> Status
    requires good { IsGood front.now.script }
    requires labels { AreLabels front.now.script.decls.list }
    requires known { number < nodes_of front.now.script.decls.list }
    requires few { length front.now.ahead ≤ 4096 }
    requires come { (h : List NodeEntry) × HasCome JobAfterJob front.now.script [] h run.engine run.unmet }
    ensures { (h : List NodeEntry) (before : Option (List ℕ)) (risen : ℕ) → HasCome JobAfterJob front.now.script [] h run.engine run.unmet → Appends before (K.text out.old) (told_text front.now.script h) → risen ≤ K.faults out.old → HasPulled result front.now.script number (prepend_known front.now.ahead (S.left source.old)) (S.faults source.old) (S.left source.new) (S.faults source.new) (HasRisen risen (K.faults out.new)) before (K.text out.new) }
{
    let decls = &front.script.decls;
    let lines = decls.as_slice().len() + run.engine.history().len();
    let mut node = node_of(run, number);
    let from = node.journal().len();
    let end = take_in(alloc, front, number, &mut node, source);
    match tell_entries(alloc, decls, number, node.journal(), from, out) {
        Ok(()) => close(alloc, end, lines as u64, out),
        Err(Halt::WriteFault) => Status::WriteFault,
        Err(_) => no_memory(out),
    }
}

// Gives the node the messages behind the script.
fn take_in<S: Source>(
    alloc: Global,
    front: &Front,
    number: u32,
    node: &mut Node,
    source: &mut S,
) -> Result<u64, ServeFault>
    requires good { IsGood front.now.script }
    requires labels { AreLabels front.now.script.decls.list }
    requires known { number < nodes_of front.now.script.decls.list }
    requires few { length front.now.ahead ≤ 4096 }
    ensures so { PullsFrom front.now.script number (prepend_known front.now.ahead (S.left source.old)) (S.faults source.old) (S.left source.new) (S.faults source.new) (means node.old) (means node.new) result }
    ensures rises { S.faults source.old ≤ S.faults source.new }
{
    let decls = front.script.decls.as_slice();
    match streams_to(alloc, decls, number) {
        Ok(streams) => {
            let nodes = node_count(&front.script.decls);
            let ahead = front.ahead.as_slice();
            pull_rest(alloc, node, nodes, streams.as_slice(), ahead, source)
        }
        Err(_) => Err(ServeFault::NoMemory),
    }
}

// Writes the lines of a node's entries from this place on.
fn tell_entries<K: Sink>(
    alloc: Global,
    decls: &Decls,
    node: u32,
    journal: &Journal,
    from: usize,
    out: &mut K,
) -> Result<(), Halt>
    requires { from ≤ length journal.now.items }
    ensures told { Writes (entry_lines decls.now.list (entries_at node (drop from journal.now.items))) (HasRisen (K.faults out.old) (K.faults out.new)) (K.text out.old) (K.text out.new) result }
    ensures rises { K.faults out.old ≤ K.faults out.new }
{
    let mut text = Seq::new(alloc);
    for at in 0..journal.len() - from {
        let entry = journal.entry(from + at);
        tell_line(decls, node, &entry.event, &mut text, out)?;
    }
    Ok(())
}

// Writes the last line of a pull that ended so, behind so many lines and those of its messages.
fn close<K: Sink>(alloc: Global, end: Result<u64, ServeFault>, lines: u64, out: &mut K) -> Status
    requires fits { IfOk end (λ count. lines + count < 2 ^ 64) }
    requires wrote { end ≢ Err faults.WriteFault }
    ensures closed { IsClosed result end (HasRisen (K.faults out.old) (K.faults out.new)) lines (K.text out.old) (K.text out.new) }
    ensures rises { K.faults out.old ≤ K.faults out.new }
{
    match end {
        Ok(count) => tell_ok(alloc, lines + count, out),
        Err(ServeFault::BadBytes { at }) => tell_bytes(alloc, at, out),
        Err(ServeFault::ReadFault) => tell(out, Status::ReadFault, b"error read\n"),
        Err(ServeFault::TooLarge) => tell(out, Status::TooLarge, b"error too large\n"),
        Err(ServeFault::Worn { at }) => tell(out, Status::Worn { at }, b"error worn\n"),
        Err(ServeFault::NoMemory) => no_memory(out),
        Err(ServeFault::WriteFault) => unreachable!(),
    }
}

// Writes `ok N`.
fn tell_ok<K: Sink>(alloc: Global, lines: u64, out: &mut K) -> Status
    ensures told { IsOkTold result lines (HasRisen (K.faults out.old) (K.faults out.new)) (K.text out.old) (K.text out.new) }
    ensures rises { K.faults out.old ≤ K.faults out.new }
{
    let mut text = Seq::new(alloc);
    match ok(lines, &mut text) {
        Ok(()) => match write(out, text.as_slice()) {
            Ok(()) => Status::Ok,
            Err(_) => Status::WriteFault,
        },
        Err(_) => no_memory(out),
    }
}

// Writes the line that tells where no message stands that may be taken in.
fn tell_bytes<K: Sink>(alloc: Global, at: u64, out: &mut K) -> Status
    ensures status { (result ≡ Status.BadBytes at) ⊎ (result ≡ Status.NoMemory) }
    ensures line { result ≡ Status.BadBytes at → WritesLine (HasRisen (K.faults out.old) (K.faults out.new)) (error_line (bytes_cause at)) (K.text out.old) (K.text out.new) }
    ensures no_memory { result ≡ Status.NoMemory → WritesLine (HasRisen (K.faults out.old) (K.faults out.new)) (error_line (codes "no memory")) (K.text out.old) (K.text out.new) }
    ensures rises { K.faults out.old ≤ K.faults out.new }
{
    let mut text = Seq::new(alloc);
    match push_bytes(at, &mut text) {
        Ok(()) => tell(out, Status::BadBytes { at }, text.as_slice()),
        Err(_) => no_memory(out),
    }
}

// Adds `error bytes AT`.
fn push_bytes(at: u64, out: &mut Bytes) -> Result<(), NoMemory>
    ensures { OnOk result (out.new ≡ out.old ++ error_line (bytes_cause at)) }
{
    out.extend(b"error bytes")?;
    push_number(at, out)?;
    out.push(b'\n')
}
