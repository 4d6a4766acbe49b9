mod bending;
mod cells;
mod meeting;
mod refusing;

ghost use Rattle.pr_crew.specs.Asking.{IsShort};
ghost use Rattle.std.specs.List.{AllByRecursion};
ghost use Rattle.std.specs.Prelude.{◌≡◌, IfOk, length};

use crate::client_job::client_job;
use crate::{FreeGate, Gate, MeetGate, PhaseNode};
use pr_cell::Cell;
use pr_names::Name;
use pr_node::Node;
use pr_script::Command;
use pr_stamps::{NoMemory, Seq};
use pr_vectors::Vector;
use std::alloc::Global;
use std::sync::Wait;
use std::test::Fail;
use std::thread;
use std::thread::Threads;

const LOOKS: u64 = 200_000_000;

// Two jobs beside each other, each of which comes to a line of its own.
fn meet<G: Gate, R: Threads + Wait + Sync>(rt: &R, gate: &G, first: u64, second: u64) {
    thread::join(rt, || gate.reached(rt, first), || gate.reached(rt, second));
}

#[test]
fn a_free_gate_is_open(rt: HostRuntime) {
    meet(&rt, &FreeGate, 1, 2);
}

#[test]
fn one_line_meets_itself_alone(rt: HostRuntime) -> Result<(), Fail> {
    let gate = MeetGate::new(vec![in rt.alloc(); 7]?, 0);
    gate.reached(&rt, 6);
    assert_eq!(rt; gate.lines_met(), 0);
    gate.reached(&rt, 7);
    gate.reached(&rt, 7);
    assert_eq!(rt; gate.lines_met(), 1);
    assert!(rt; !gate.gave_up());
    Ok(())
}

#[test]
fn a_line_that_is_not_reached_is_given_up(rt: HostRuntime) -> Result<(), Fail> {
    let gate = MeetGate::new(vec![in rt.alloc(); 7, 9]?, 100);
    gate.reached(&rt, 9);
    assert_eq!(rt; gate.lines_met(), 1);
    assert!(rt; gate.gave_up());
    Ok(())
}

#[test]
fn two_threads_meet(rt: HostRuntime) -> Result<(), Fail> {
    let gate = MeetGate::new(vec![in rt.alloc(); 7, 9]?, LOOKS);
    meet(&rt, &gate, 9, 7);
    assert_eq!(rt; gate.lines_met(), 2);
    assert!(rt; !gate.gave_up());
    Ok(())
}

// A write of a client, and a read of it, on lines 1 and 2.
fn two_lines(alloc: Global) -> Result<Vec<(u64, Command)>, NoMemory>
    ensures { IfOk result (λ v. (length v.items ≡ 2) × AllByRecursion (λ line. IsShort line.1) v.items) }
{
    let Ok(name) = Name::read(b"a/x") else {
        return Err(NoMemory);
    };
    let body = Seq::copied(alloc, b"one")?;
    let write = Command::Write {
        client: 0,
        name,
        body,
    };
    let read = Command::Read { client: 0, name };
    Ok(vec![in alloc; (1, write), (2, read)]?)
}

#[test]
fn a_client_writes_and_reads(rt: HostRuntime) -> Result<(), Fail> {
    let alloc = rt.alloc();
    let node = Node::new(alloc, 0, Seq::new(alloc))?;
    let Ok((cell, mut root)) = Cell::new(alloc, PhaseNode::new(node), 2) else {
        panic!(rt; "there is memory")
    };
    let pass = cell.split(&mut root);
    let lines = two_lines(alloc)?;
    let (pass, end) = client_job(
        &rt,
        &FreeGate,
        &cell,
        pass,
        0,
        Vector::zero(),
        lines.as_slice(),
    );
    assert!(rt; end.is_ok());
    let root = cell.join_pass(root, pass);
    let node = cell.close(root).into_node();
    assert!(rt; node.journal().len() == 2);
    Ok(())
}
