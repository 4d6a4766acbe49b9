// The asks behind a script are answered.
ghost use Rattle.pr_script.specs.Good.{IsGood};
ghost use Rattle.pr_serve.specs.Sinks.{sink};
ghost use Rattle.pr_text.specs.Numbers.{nodes_of};
ghost use Rattle.pr_top.specs.Answers.{AnswersServe, ports_of};
ghost use Rattle.pr_top.specs.Served.{HasServed, status_of, stop_of};
ghost use Rattle.std.specs.Io.KnownBytes.{prepend_known};
ghost use Rattle.std.specs.Prelude.{◌≡◌, ◌<◌, ◌≤◌, length};

use crate::Status;
use crate::fronts::{Front, read_front};
use crate::left::node_after;
use crate::nodes::number_of;
use crate::reading::ReadError;
use crate::stepping::Halt;
use pr_ports::{Sink, Source};
use pr_serve::{ServeFault, serve_rest};
use std::alloc::Global;

/// Reads a script up to a byte 0, runs it, and answers the asks behind it at the node with this label.
pub fn serve<S: Source, K: Sink>(alloc: Global, label: &[u8], source: &mut S, out: &mut K) -> Status
    ensures { AnswersServe label.now (ports_of S.left S.faults K.text K.faults source.old out.old) (ports_of S.left S.faults K.text K.faults source.new out.new) result }
{
    match read_front(alloc, source) {
        Ok(front) => match number_of(&front.script.decls, label) {
            Some(node) => answer_asks(alloc, &front, node, source, out),
            None => Status::NoNode,
        },
        Err(ReadError::Failed) => Status::ReadFault,
        Err(ReadError::TooLarge) => Status::TooLarge,
        Err(ReadError::Bad { line, why }) => Status::BadScript { line, why },
        Err(ReadError::NoMemory) => Status::NoMemory,
    }
}

// Runs the script, and answers the asks behind it at its node of this number.
fn answer_asks<S: Source, K: Sink>(
    alloc: Global,
    front: &Front,
    number: u32,
    source: &mut S,
    out: &mut K,
) -> Status
    requires good { IsGood front.now.script }
    requires known { number < nodes_of front.now.script.decls.list }
    requires few { length front.now.ahead ≤ 4096 }
    ensures { HasServed result front.now.script number (prepend_known front.now.ahead (S.left source.old)) (S.faults source.old) (sink (K.text out.old) (K.faults out.old)) (S.left source.new) (S.faults source.new) (sink (K.text out.new) (K.faults out.new)) }
{
    match node_after(alloc, &front.script, number) {
        Ok(mut node) => {
            let end = serve_rest(alloc, &mut node, front.ahead.as_slice(), source, out);
            status_of(end)
        }
        Err(halt) => stop_of(halt),
    }
}

// The status of a call whose run stopped so, without a line.
fn stop_of(halt: Halt) -> Status
    ensures { result ≡ stop_of halt }
{
    match halt {
        Halt::Worn { at } => Status::Worn { at },
        _ => Status::NoMemory,
    }
}

/// The status of a call that ends so.
pub fn status_of(end: Result<u64, ServeFault>) -> Status
    ensures { result ≡ status_of end }
{
    match end {
        Ok(_) => Status::Ok,
        Err(ServeFault::BadBytes { at }) => Status::BadBytes { at },
        Err(ServeFault::ReadFault) => Status::ReadFault,
        Err(ServeFault::WriteFault) => Status::WriteFault,
        Err(ServeFault::TooLarge) => Status::TooLarge,
        Err(ServeFault::Worn { at }) => Status::Worn { at },
        Err(ServeFault::NoMemory) => Status::NoMemory,
    }
}
