// The top call.
ghost use Rattle.pr_ports.specs.Faults.{HasRisen};
ghost use Rattle.pr_text.specs.Endings.{error_line};
ghost use Rattle.pr_top.specs.Answers.{Answers, AnswersKept, AnswersOver, AnswersScript, IsUnreadFor, ports_of};
ghost use Rattle.pr_top.specs.Runs.{WritesLine, all_sound};
ghost use Rattle.pr_words.specs.declared.job.Job.TheVariants as jobs;
ghost use Rattle.pr_words.specs.Words.{job_of};
ghost use Rattle.std.specs.Prelude.{◌≡◌, ◌≢◌, ◌≤◌, ℕ, None, Some, codes, map, string_bytes};

use crate::Status;
use crate::asking::ask;
use crate::beside::Beside;
use crate::checking::check;
use crate::generating::generate;
use crate::outliving::{keep_all, keep_until};
use crate::pulling::pull;
use crate::reading::{ReadError, read_script};
use crate::running::run;
use crate::serving::serve;
use crate::telling::{no_memory, tell, tell_bad};
use pr_crew::Gate;
use pr_ports::{Sink, Source};
use pr_wires::Wires;
use pr_words::{Job, WordsFault};
use std::alloc::Global;
use std::sync::Wait;
use std::thread::Threads;

/// The most steps of a generated script.
const MOST: u64 = 90_000;

/// The fewest calls that a disk may answer before it stops.
const LEAST_STOP: u64 = 2;

/// The most of them.
const MOST_STOP: u64 = 1_000_000_000;

/// Does what the words ask for, and answers how it ended. The words lack the program's own name.
///
/// `sim` reads a script (docs/SCRIPT.md), runs it in one thread and writes its transcript (docs/TRANSCRIPT.md), each
/// line as it comes. Reading takes time linear in the script's bytes and keeps its commands; the run takes the time of
/// the nodes' calls and keeps their journals. `run` does the same, each job of a phase in a thread of its own that
/// calls the gate before each of its lines, each flow over a connection of its own. `kept` does as `sim` does, and
/// keeps each entry on a disk in memory before its line is written, which holds each byte written twice; where that
/// disk stops it tells what the disk held (docs/KEPT.md). `gen` reads nothing, runs the generated script of its seed
/// and size, and writes the summary of the run. `check` reads a text of at most 67,108,864 bytes as it comes, and
/// writes whether it is a transcript, once it was read to its end; it takes the time that the events took, and keeps
/// the nodes' journals. `ask` reads and runs a script, writes the asks of a node for the streams that end at it
/// (docs/WIRE.md), and no line. `serve` and `pull` read a script up to the first byte 0, and run it; then `serve`
/// answers the asks behind it at a node, and `pull` writes the transcript, gives the node the messages behind the
/// script, and writes the lines of what it took in. What `sim`, `run`, `kept`, `gen` and `check` hold where they come
/// to their end goes back with the program, in one piece.
///
/// `run` returns if its threads return.
pub fn practi<R: Threads + Wait + Sync, S: Source, K: Sink, W: Wires, G: Gate>(
    rt: &R,
    alloc: Global,
    words: &[String],
    script: &mut S,
    out: &mut K,
    wires: &mut W,
    gate: &G,
) -> Status
    requires { W.made wires.old ≡ 0 }
    ensures { Answers (job_of (map string_bytes words.now)) (W.sound wires.old) (W.carried wires.old) (W.carried wires.new) (ports_of S.left S.faults K.text K.faults script.old out.old) (ports_of S.left S.faults K.text K.faults script.new out.new) result }
{
    match pr_words::read(alloc, words) {
        Ok(Job::Run) => run_beside(&Beside { rt, alloc, gate }, script, out, wires),
        Ok(job) => alone(alloc, &job, script, out),
        Err(WordsFault::Usage) => usage(out),
        Err(WordsFault::NoMemory) => no_memory(out),
    }
}

/// Does the whole of a job in one thread, as `practi` does; not `run`.
pub fn alone<S: Source, K: Sink>(alloc: Global, job: &Job, script: &mut S, out: &mut K) -> Status
    requires { job.now ≢ jobs.Run }
    ensures { Answers (Some job.now) all_sound None None (ports_of S.left S.faults K.text K.faults script.old out.old) (ports_of S.left S.faults K.text K.faults script.new out.new) result }
{
    match job {
        Job::Sim => sim(alloc, script, out),
        Job::Gen { seed, size } if *size <= MOST => generate(alloc, *seed, *size, out),
        Job::Check => check(alloc, script, out),
        Job::Kept { stop: None } => keep(alloc, script, out),
        Job::Kept { stop: Some(stop) } if LEAST_STOP <= *stop && *stop <= MOST_STOP => {
            keep_for(alloc, *stop, script, out)
        }
        Job::Ask { node } => ask(alloc, node.as_slice(), script, out),
        Job::Serve { node } => serve(alloc, node.as_slice(), script, out),
        Job::Pull { node } => pull(alloc, node.as_slice(), script, out),
        _ => usage(out),
    }
}

// Answers words that are not accepted.
fn usage<K: Sink>(out: &mut K) -> Status
    ensures status { result ≡ Status.Usage }
    ensures line { WritesLine (HasRisen (K.faults out.old) (K.faults out.new)) (error_line (codes "usage")) (K.text out.old) (K.text out.new) }
{
    tell(out, Status::Usage, b"error usage\n")
}

// Reads a script and runs it in one thread.
fn sim<S: Source, K: Sink>(alloc: Global, script: &mut S, out: &mut K) -> Status
    ensures { AnswersScript (ports_of S.left S.faults K.text K.faults script.old out.old) (ports_of S.left S.faults K.text K.faults script.new out.new) result }
{
    match read_script(alloc, script) {
        Ok(script) => run(alloc, &script, out),
        Err(error) => unread(alloc, error, out),
    }
}

// Reads a script and runs it with the jobs of its phases beside each other.
fn run_beside<R: Threads + Wait + Sync, S: Source, K: Sink, W: Wires, G: Gate>(
    beside: &Beside<R, G>,
    script: &mut S,
    out: &mut K,
    wires: &mut W,
) -> Status
    requires { W.made wires.old ≡ 0 }
    ensures { AnswersOver (W.sound wires.old) (W.carried wires.old) (W.carried wires.new) (ports_of S.left S.faults K.text K.faults script.old out.old) (ports_of S.left S.faults K.text K.faults script.new out.new) result }
{
    match read_script(beside.alloc, script) {
        Ok(script) => beside.run(&script, wires, out),
        Err(error) => unread(beside.alloc, error, out),
    }
}

// Reads a script and runs it in one thread, each entry kept before its line is written.
fn keep<S: Source, K: Sink>(alloc: Global, script: &mut S, out: &mut K) -> Status
    ensures { AnswersScript (ports_of S.left S.faults K.text K.faults script.old out.old) (ports_of S.left S.faults K.text K.faults script.new out.new) result }
{
    match read_script(alloc, script) {
        Ok(script) => keep_all(alloc, &script, out),
        Err(error) => unread(alloc, error, out),
    }
}

// The same on a disk that answers so many calls.
fn keep_for<S: Source, K: Sink>(alloc: Global, stop: u64, script: &mut S, out: &mut K) -> Status
    requires least { 2 ≤ stop }
    requires most { stop ≤ 1000000000 }
    ensures { AnswersKept stop (ports_of S.left S.faults K.text K.faults script.old out.old) (ports_of S.left S.faults K.text K.faults script.new out.new) result }
{
    match read_script(alloc, script) {
        Ok(script) => keep_until(alloc, &script, stop, out),
        Err(error) => unread(alloc, error, out),
    }
}

// Tells why no script was read.
fn unread<K: Sink>(alloc: Global, error: ReadError, out: &mut K) -> Status
    ensures { IsUnreadFor error result (HasRisen (K.faults out.old) (K.faults out.new)) (K.text out.old) (K.text out.new) }
{
    match error {
        ReadError::Failed => tell(out, Status::ReadFault, b"error read\n"),
        ReadError::TooLarge => tell(out, Status::TooLarge, b"error too large\n"),
        ReadError::Bad { line, why } => tell_bad(alloc, out, line, why),
        ReadError::NoMemory => no_memory(out),
    }
}
