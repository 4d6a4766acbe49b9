// The jobs of a phase, each in a thread of its own.
ghost use Rattle.pr_crew.specs.Acting.{AtCell};
ghost use Rattle.pr_crew.specs.Asking.{IsShort};
ghost use Rattle.pr_crew.specs.Crossing.{FlowCrosses, JobCrosses};
ghost use Rattle.pr_crew.specs.Flowing.{FlowBegins, FlowEnds, FlowEndsOver};
ghost use Rattle.pr_crew.specs.Tasks.{CanRun, HasRun, IsDone, IsDoneClient, IsDoneFlow, IsHonest, IsReady, IsReadyClient, IsReadyFlow, IsSamePass, IsSameStream, IsSoundWire, StaysJob, count_of};
ghost use Rattle.pr_crew.specs.declared.task.Task.{Task};
ghost use Rattle.pr_flow.specs.Calls.{IsKept};
ghost use Rattle.pr_flow.specs.Ending.{IsSoundEnd};
ghost use Rattle.pr_flow.specs.Flows.{IsWhole};
ghost use Rattle.pr_script.specs.Steps.{Numbered};
ghost use Rattle.pr_inval.specs.Standing.{means};
ghost use Rattle.pr_story.specs.History.{NodeEntry, Plan};
ghost use Rattle.pr_story.specs.Merging.{New, plain};
ghost use Rattle.pr_story.specs.Scripts.{events_of};
ghost use Rattle.pr_story.specs.declared.cause.Cause.TheVariants.{Failed};
ghost use Rattle.pr_story.specs.declared.event.Event.TheVariants.{Down};
ghost use Rattle.pr_wires.specs.Calls.{IsUnused};
ghost use Rattle.std.specs.List.{AllByRecursion};
ghost use Rattle.std.specs.Prelude.{◌≡◌, ◌≤◌, [], ◌∷◌, ℕ, List, IfSome, IsTrue, length, slice_get, Some};

use crate::cell_side::CellSide;
use crate::client_job::client_job;
use crate::flow_job::flow_job;
use crate::task::{ClientTask, FlowTask, Task};
use crate::work::FlowWork;
use crate::{Gate, PhaseNode};
use pr_cell::Cell;
use pr_flow::{FlowEnd, Side};
use pr_inval::{NodeFault, Session};
use pr_script::Command;
use pr_story::Cause;
use pr_wires::Wire;
use std::alloc::Global;
use std::sync::Wait;
use std::thread;
use std::thread::Threads;

/// Runs all jobs beside each other. It waits for the last one.
pub(crate) fn run_all<R: Threads + Wait + Sync, G: Gate, W: Wire + Send>(
    rt: &R,
    gate: &G,
    alloc: Global,
    cells: &[Cell<PhaseNode>],
    inside: &[(u64, Command)],
    tasks: &mut [Task<W>],
)
    requires ready { (plan : Plan) × (h : List NodeEntry) × ((k : ℕ) (t : Task W) → slice_get tasks.old k ≡ Some t → IsReady plan h cells.now W.state t) }
    requires lines { (length inside.now ≤ 100000) × AllByRecursion (λ line. IsShort line.1) inside.now }
    ensures many { length tasks.new ≡ length tasks.old }
    ensures done { (plan : Plan) (h : List NodeEntry) → ((k : ℕ) (t : Task W) → slice_get tasks.old k ≡ Some t → IsReady plan h cells.now W.state t) → (k : ℕ) (u : Task W) → slice_get tasks.new k ≡ Some u → (xs : List New) × IsDone plan h inside.now cells.now k u xs × JobCrosses W.state u xs }
    ensures stay { (k : ℕ) (t u : Task W) → slice_get tasks.old k ≡ Some t → slice_get tasks.new k ≡ Some u → StaysJob t u }
    ensures sound { (k : ℕ) (t u : Task W) → slice_get tasks.old k ≡ Some t → slice_get tasks.new k ≡ Some u → IsHonest W.state t u }
{
    if tasks.is_empty() {
        return;
    }
    let threads = tasks.len();
    thread::for_each_mut(
        rt,
        tasks,
        threads,
        &|_, task: &mut Task<W>|
            requires ready { CanRun W.state cells.now task.now }
            requires lines { (length inside.now ≤ 100000) × AllByRecursion (λ line. IsShort line.1) inside.now }
            ensures { HasRun W.state cells.entry.now inside.entry.now task.entry.now task.exit.now }
        { run(rt, gate, alloc, cells, inside, task) },
    );
}

fn run<R: Wait, G: Gate, W: Wire>(
    rt: &R,
    gate: &G,
    alloc: Global,
    cells: &[Cell<PhaseNode>],
    inside: &[(u64, Command)],
    task: &mut Task<W>,
)
    requires ready { CanRun W.state cells.now task.old }
    requires lines { (length inside.now ≤ 100000) × AllByRecursion (λ line. IsShort line.1) inside.now }
    ensures { HasRun W.state cells.now inside.now task.old task.new }
{
    match task {
        Task::Client(task) => run_client(rt, gate, cells, inside, task),
        Task::Flow(task) => run_flow(rt, gate, alloc, cells, task),
    }
}

fn run_client<R: Wait, G: Gate>(
    rt: &R,
    gate: &G,
    cells: &[Cell<PhaseNode>],
    inside: &[(u64, Command)],
    task: &mut ClientTask,
)
    requires ready { (plan : Plan) × (h : List NodeEntry) × IsReadyClient plan h cells.now task.old }
    requires lines { (length inside.now ≤ 100000) × AllByRecursion (λ line. IsShort line.1) inside.now }
    ensures done { (plan : Plan) (h : List NodeEntry) (k : ℕ) → IsReadyClient plan h cells.now task.old → (xs : List New) × IsDoneClient plan h inside.now cells.now k task.new xs }
    ensures stays { (task.new.work ≡ task.old.work) × IsSamePass task.old.pass task.new.pass }
{
    let Some(pass) = task.pass.take() else {
        unreachable!()
    };
    let work = task.work;
    let cell = &cells[work.node as usize];
    let (pass, end) = client_job(rt, gate, cell, pass, work.client, work.seen, inside);
    task.pass = Some(pass);
    task.end = end;
}

fn run_flow<R: Wait, G: Gate, W: Wire>(
    rt: &R,
    gate: &G,
    alloc: Global,
    cells: &[Cell<PhaseNode>],
    task: &mut FlowTask<W>,
)
    requires ready { (plan : Plan) × (h : List NodeEntry) × IsReadyFlow plan h cells.now W.state task.old }
    ensures done { (plan : Plan) (h : List NodeEntry) (inside : List Numbered) (k : ℕ) → IsReadyFlow plan h cells.now W.state task.old → (xs : List New) × IsDoneFlow plan h inside cells.now k task.new xs × FlowCrosses W.state task.new xs }
    ensures work { task.new.work ≡ task.old.work }
    ensures passes { IsSamePass task.old.source task.new.source × IsSamePass task.old.destination task.new.destination }
    ensures session { IsSameStream task.old.session task.new.session }
    ensures wire { count_of task.new.wire ≡ count_of task.old.wire }
    ensures sound { IsSoundWire W.state task.old.wire → IsSoundEnd task.new.end }
{
    let (Some(from), Some(to), Some(mut session)) = (
        task.source.take(),
        task.destination.take(),
        task.session.take(),
    ) else {
        unreachable!()
    };
    let work = task.work;
    let mut source = CellSide::new(rt, &cells[work.source as usize], from);
    let mut destination = CellSide::new(rt, &cells[work.destination as usize], to);
    let end = drive(
        rt,
        gate,
        alloc,
        &work,
        &mut source,
        &mut destination,
        &mut session,
        &mut task.wire,
    );
    task.end = end;
    task.source = source.take_pass();
    task.destination = destination.take_pass();
    task.session = Some(session);
}

/// Makes the turns of a flow over its wire, if it has one.
pub(crate) fn drive<R: Wait, G: Gate, W: Wire>(
    rt: &R,
    gate: &G,
    alloc: Global,
    work: &FlowWork,
    source: &mut CellSide<'_, R>,
    destination: &mut CellSide<'_, R>,
    session: &mut Session,
    wire: &mut Option<W>,
) -> Result<FlowEnd, NodeFault>
    requires attached { IsTrue (means session.old).attached }
    requires unused { IfSome wire.old (λ w. IsUnused (W.state w)) }
    ensures done { (plan : Plan) (h : List NodeEntry) (s k : ℕ) → FlowBegins plan h s source.old destination.old session.old → FlowEndsOver W.state wire.new plan h s work.now.turns k source.old destination.old source.new destination.new session.new result }
    ensures session { IsKept (means session.old) (means session.new) }
    ensures wire { count_of wire.new ≡ count_of wire.old }
    ensures sound { IsSoundWire W.state wire.old → IsSoundEnd result }
{
    match wire {
        Some(wire) => flow_job(
            rt,
            gate,
            alloc,
            work.line,
            work.turns,
            source,
            destination,
            session,
            wire,
        ),
        None => unconnected(rt, gate, work.line, destination, session),
    }
}

// A flow for which there is no connection goes down.
fn unconnected<R: Wait, G: Gate>(
    rt: &R,
    gate: &G,
    line: u64,
    destination: &mut CellSide<'_, R>,
    session: &mut Session,
) -> Result<FlowEnd, NodeFault>
    requires attached { IsTrue (means session.old).attached }
    ensures done { (plan : Plan) (h : List NodeEntry) (s turns k : ℕ) (source : AtCell) → FlowBegins plan h s source destination.old session.old → (f : FlowEnds plan h s turns k source destination.old source destination.new session.new result) × (IsWhole result → events_of (plain f.made) ≡ Down s Failed ∷ []) }
    ensures session { IsKept (means session.old) (means session.new) }
{
    gate.reached(rt, line);
    destination.down(session, Cause::Failed)?;
    Ok(FlowEnd::Down(Cause::Failed))
}
