// Jobs in threads of their own, which meet between their lines.
ghost use Rattle.pr_cell.specs.Passes.{IsPassOf};
ghost use Rattle.pr_crew.specs.Asking.{IsShort};
ghost use Rattle.pr_crew.specs.Stories.{stories};
ghost use Rattle.pr_crew.specs.declared.task.ClientTask.{ClientTask};
ghost use Rattle.pr_crew.specs.declared.task.Task.TheVariants as tasks;
ghost use Rattle.pr_vectors.specs.Vector.{zero_vector};
ghost use Rattle.std.specs.List.{AllByRecursion};
ghost use Rattle.std.specs.Prelude.{◌≡◌, ◌<◌, ◌≤◌, ◌^◌, [], ◌∷◌, ℕ, IfOk, Some, length};

use super::LOOKS;
use super::cells::new_cell;
use crate::running::run_all;
use crate::task::{ClientTask, Task};
use crate::work::ClientWork;
use crate::{MeetGate, PhaseNode};
use pr_cell::{Cell, Pass};
use pr_names::Name;
use pr_script::{Bytes, Command};
use pr_stamps::{NoMemory, Seq};
use pr_vectors::Vector;
use pr_wires::TrueWire;
use std::alloc::Global;
use std::sync::Wait;
use std::test::Fail;

// The lines of two clients: on lines 5 and 6 a write and a read of one, and on lines 7 and 8 those of the other.
fn lines_of_two(alloc: Global) -> Result<Vec<(u64, Command)>, NoMemory>
    ensures { IfOk result (λ v. (length v.items ≡ 4) × AllByRecursion (λ line. IsShort line.1) v.items) }
{
    let (Ok(a), Ok(b)) = (Name::read(b"a"), Name::read(b"b")) else {
        return Err(NoMemory);
    };
    Ok(vec![in alloc;
        (5, write(0, a, Seq::copied(alloc, b"1")?)),
        (6, Command::Read { client: 0, name: a }),
        (7, write(1, b, Seq::copied(alloc, b"2")?)),
        (8, Command::Read { client: 1, name: b }),
    ]?)
}

fn write(client: u32, name: Name, body: Bytes) -> Command
    requires { length body ≤ 65536 }
    ensures { IsShort result }
{
    Command::Write { client, name, body }
}

// The job of a client that stands at the node and has two lines.
fn job_of(client: u32, pass: Pass<PhaseNode>) -> Task<TrueWire>
    ensures { (t : ClientTask) × (result ≡ tasks.Client t) × (t.work.node ≡ 0) × (t.work.client ≡ client) × (t.work.seen ≡ zero_vector) × (t.pass ≡ Some pass) }
{
    let work = ClientWork {
        client,
        node: 0,
        seen: Vector::zero(),
        lines: 2,
    };
    Task::Client(ClientTask {
        work,
        pass: Some(pass),
        end: Ok(()),
    })
}

// How many entries the node has.
fn made_at<R: Wait>(rt: &R, cell: &Cell<PhaseNode>, pass: Pass<PhaseNode>) -> usize
    requires pass { IsPassOf stories cell.now pass }
    requires room { pass.turns < 2 ^ 40 }
{
    let mut turn = cell.take(rt, pass);
    let made = turn.value().node.journal().len();
    let _ = cell.put(turn);
    made
}

// Whether all lines of a client were run.
fn has_run(task: &Task<TrueWire>) -> bool {
    match task {
        Task::Client(task) => task.end.is_ok(),
        Task::Flow(_) => false,
    }
}

#[test]
fn clients_of_one_node_meet_between_their_lines(rt: HostRuntime) -> Result<(), Fail> {
    let alloc = rt.alloc();
    let lines = lines_of_two(alloc)?;
    let (cell, mut root) = new_cell(alloc, 0)?;
    let first = cell.split(&mut root);
    let second = cell.split(&mut root);
    let cells = vec![in alloc; cell]?;
    let mut tasks = vec![in alloc; job_of(0, first), job_of(1, second)]?;
    let gate = MeetGate::new(vec![in alloc; 6, 8]?, LOOKS);
    run_all(
        &rt,
        &gate,
        alloc,
        cells.as_slice(),
        lines.as_slice(),
        tasks.as_mut_slice(),
    );
    assert!(rt; tasks.iter().all(has_run));
    assert_eq!(rt; made_at(&rt, &cells[0], root), 4);
    assert_eq!(rt; gate.lines_met(), 2);
    assert!(rt; !gate.gave_up());
    Ok(())
}
