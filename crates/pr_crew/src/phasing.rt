// A phase whose jobs run beside each other.
ghost use Rattle.pr_crew.specs.Asking.{IsShort};
ghost use Rattle.pr_crew.specs.Carrying.{PhaseCarries};
ghost use Rattle.pr_crew.specs.Crossing.{AreClosed, JobCrosses};
ghost use Rattle.pr_crew.specs.Leaving.{HaveRun};
ghost use Rattle.pr_crew.specs.Phases.{AllWork, AreDistinct, CanRunPhase, IsOut, IsPlanned, LeavesPhase, RepresentsNodes, SameAttached};
ghost use Rattle.pr_crew.specs.Rooms.{HasRoomFor, KnowsOpening, total_at};
ghost use Rattle.pr_merge.specs.Holding.{HeldState};
ghost use Rattle.pr_crew.specs.Sound.{AddsDownsOf, HaveEndsOf};
ghost use Rattle.pr_crew.specs.Starting.{CanStart};
ghost use Rattle.pr_crew.specs.Tasks.{IsDone, IsHonest, IsReady, StaysJob};
ghost use Rattle.pr_crew.specs.declared.task.Task.{Task};
ghost use Rattle.pr_crew.specs.Works.{own_flows};
ghost use Rattle.pr_text.specs.Steps.{jobs_of};
ghost use Rattle.pr_story.specs.Scripts.{Phase};
ghost use Rattle.pr_story.specs.Merging.{New};
ghost use Rattle.pr_merge.specs.Holding.{AreAllHere};
ghost use Rattle.pr_node.specs.Stored.{Stored};
ghost use Rattle.pr_flow.specs.Downs.{GoesOver, IsLieAt, IsUnsoundFor, flows_of};
ghost use Rattle.pr_flow.specs.declared.stop.Stop.TheVariants as stops;
ghost use Rattle.pr_script.specs.declared.owner.Owner.{Owner};
ghost use Rattle.pr_story.specs.Counts.{Declared};
ghost use Rattle.pr_story.specs.History.{NodeEntry, Plan};
ghost use Rattle.std.specs.List.{AllByRecursion};
ghost use Rattle.std.specs.Prelude.{◌≡◌, ◌≤◌, ◌<◌, ◌+◌, ◌^◌, ◌⊎◌, [], ℕ, Err, IsTrue, nat_lt, List, None, Ok, Some, get_or, length, slice_get, vec_capacity};

use crate::planning::plan;
use crate::room::Room;
use crate::running::run_all;
use crate::sites::Sites;
use crate::starting::{end, start};
use crate::task::Task;
use crate::work::Work;
use crate::{Gate, PhaseNode, room};
use pr_cell::Cell;
use pr_flow::Stop;
use pr_merge::Held;
use pr_node::Node;
use pr_script::{Command, owners};
use pr_stamps::NoMemory;
use pr_wires::{Wire, Wires};
use std::alloc::Global;
use std::sync::Wait;
use std::thread::Threads;

/// Runs the jobs of a phase beside each other, each in a thread of its own: all lines of a client are one job, and each
/// flow is one. Then what they made is added to the history, by time, then node. All memory besides the journals' and the
/// messages' is taken before the first job starts. A job that does not go its way ends alone; the answer is that of the
/// first such job.
pub fn phase<R: Threads + Wait + Sync, H: Held<Node = Node>, W: Wires, G: Gate>(
    rt: &R,
    alloc: Global,
    held: &mut H,
    inside: &[(u64, Command)],
    wires: &mut W,
    gate: &G,
) -> Result<Stop, NoMemory>
    requires kept { (d : Declared) × (h : List NodeEntry) × RepresentsNodes (H.records held.old) d h (H.state held.old) }
    requires can { CanRunPhase (H.state held.old) inside.now }
    requires distinct { (d : Declared) (h : List NodeEntry) → RepresentsNodes (H.records held.old) d h (H.state held.old) → AreDistinct d.plan h inside.now }
    requires few { W.made wires.old + 64 ≤ 2 ^ 40 }
    ensures leaves { (d : Declared) (h : List NodeEntry) → RepresentsNodes (H.records held.old) d h (H.state held.old) → LeavesPhase (H.records held.new) d h inside.now (H.state held.new) result }
    ensures attached { SameAttached (H.state held.old) (H.state held.new) }
    ensures works { result ≡ Ok stops.Went → AllWork (H.state held.new) }
    ensures made { W.made wires.new ≤ W.made wires.old + 64 }
    ensures out { W.out wires.new ≡ W.out wires.old }
    ensures faults { W.faults wires.old ≤ W.faults wires.new }
    ensures sound { W.sound wires.new ≡ W.sound wires.old }
    ensures carried { (d : Declared) (h : List NodeEntry) → RepresentsNodes (H.records held.old) d h (H.state held.old) → PhaseCarries (H.records held.new) d h inside.now (H.state held.new) (W.carried wires.old) (W.carried wires.new) result }
    ensures over { GoesOver W.made W.sound (flows_of (Phase (jobs_of inside.now))) wires.old wires.new result }
    ensures downs { (d : Declared) (h : List NodeEntry) → RepresentsNodes (H.records held.old) d h (H.state held.old) → AddsDownsOf (IsUnsoundFor (W.sound wires.old) (W.made wires.old) (flows_of (Phase (jobs_of inside.now)))) (H.records held.new) d h (H.state held.new) }
{
    let owners = owners(alloc, inside)?;
    let works = plan(alloc, held, owners.as_slice(), inside)?;
    let count = count_nodes(held);
    let room = room::take(alloc, held, works.as_slice(), count)?;
    over_cells(
        rt,
        alloc,
        held,
        wires,
        gate,
        works.as_slice(),
        inside,
        count,
        room,
    )
}

// Moves the nodes into cells, and runs the jobs. Where there is no memory, all nodes are given back.
fn over_cells<R: Threads + Wait + Sync, H: Held<Node = Node>, W: Wires, G: Gate>(
    rt: &R,
    alloc: Global,
    held: &mut H,
    wires: &mut W,
    gate: &G,
    works: &[Work],
    inside: &[(u64, Command)],
    count: u32,
    room: Room,
) -> Result<Stop, NoMemory>
    requires planned { (d : Declared) × (h : List NodeEntry) × IsPlanned (H.records held.old) d h inside.now works.now count (H.state held.old) }
    requires jobs { length works.now ≤ 64 }
    requires fits { HasRoomFor works.now count room }
    requires opening { (d : Declared) (h : List NodeEntry) → IsPlanned (H.records held.old) d h inside.now works.now count (H.state held.old) → KnowsOpening h count room }
    requires history { (n : ℕ) → n ≤ total_at works.now count → H.has_room held.old n }
    requires few { W.made wires.old + 64 ≤ 2 ^ 40 }
    ensures leaves { (d : Declared) (h : List NodeEntry) → IsPlanned (H.records held.old) d h inside.now works.now count (H.state held.old) → LeavesPhase (H.records held.new) d h inside.now (H.state held.new) result }
    ensures attached { SameAttached (H.state held.old) (H.state held.new) }
    ensures works { result ≡ Ok stops.Went → AllWork (H.state held.new) }
    ensures made { W.made wires.new ≤ W.made wires.old + 64 }
    ensures out { W.out wires.new ≡ W.out wires.old }
    ensures faults { W.faults wires.old ≤ W.faults wires.new }
    ensures sound { W.sound wires.new ≡ W.sound wires.old }
    ensures over { GoesOver W.made W.sound (own_flows works.now) wires.old wires.new result }
    ensures carried { (d : Declared) (h : List NodeEntry) → IsPlanned (H.records held.old) d h inside.now works.now count (H.state held.old) → PhaseCarries (H.records held.new) d h inside.now (H.state held.new) (W.carried wires.old) (W.carried wires.new) result }
    ensures downs { (d : Declared) (h : List NodeEntry) → IsPlanned (H.records held.old) d h inside.now works.now count (H.state held.old) → AddsDownsOf (IsUnsoundFor (W.sound wires.old) (W.made wires.old) (own_flows works.now)) (H.records held.new) d h (H.state held.new) }
{
    let sites = Sites::open(alloc, held, count, works.len() as u32 + 1)?;
    match Vec::with_capacity(alloc, works.len()) {
        Ok(tasks) => in_room(
            rt, alloc, held, wires, gate, works, inside, sites, tasks, room,
        ),
        Err(_) => {
            sites.close(held);
            Err(NoMemory)
        }
    }
}

// Runs the jobs, and adds what they made to the history.
fn in_room<R: Threads + Wait + Sync, H: Held<Node = Node>, W: Wires, G: Gate>(
    rt: &R,
    alloc: Global,
    held: &mut H,
    wires: &mut W,
    gate: &G,
    works: &[Work],
    inside: &[(u64, Command)],
    sites: Sites,
    tasks: Vec<Task<W::Wire>>,
    room: Room,
) -> Result<Stop, NoMemory>
    requires out { (d : Declared) × (h : List NodeEntry) × (was : HeldState Stored) × IsOut (H.records held.old) d h inside.now works.now sites was (H.state held.old) × KnowsOpening h (length sites.cells.items) room }
    requires jobs { length works.now ≤ 64 }
    requires fits { HasRoomFor works.now (length sites.cells.items) room }
    requires history { (n : ℕ) → n ≤ total_at works.now (length sites.cells.items) → H.has_room held.old n }
    requires empty { tasks.items ≡ [] }
    requires room { length works.now ≤ vec_capacity tasks }
    requires few { W.made wires.old + 64 ≤ 2 ^ 40 }
    ensures leaves { (d : Declared) (h : List NodeEntry) (was : HeldState Stored) → IsOut (H.records held.old) d h inside.now works.now sites was (H.state held.old) → KnowsOpening h (length sites.cells.items) room → LeavesPhase (H.records held.new) d h inside.now (H.state held.new) result }
    ensures attached { (d : Declared) (h : List NodeEntry) (was : HeldState Stored) → IsOut (H.records held.old) d h inside.now works.now sites was (H.state held.old) → KnowsOpening h (length sites.cells.items) room → SameAttached was (H.state held.new) }
    ensures works { result ≡ Ok stops.Went → AllWork (H.state held.new) }
    ensures made { W.made wires.new ≤ W.made wires.old + 64 }
    ensures out { W.out wires.new ≡ W.out wires.old }
    ensures faults { W.faults wires.old ≤ W.faults wires.new }
    ensures sound { W.sound wires.new ≡ W.sound wires.old }
    ensures each_made { W.made wires.new ≡ W.made wires.old + length (own_flows works.now) }
    ensures lie { IsLieAt (IsUnsoundFor (W.sound wires.old) (W.made wires.old) (own_flows works.now)) result }
    ensures carried { (d : Declared) (h : List NodeEntry) (was : HeldState Stored) → IsOut (H.records held.old) d h inside.now works.now sites was (H.state held.old) → KnowsOpening h (length sites.cells.items) room → PhaseCarries (H.records held.new) d h inside.now (H.state held.new) (W.carried wires.old) (W.carried wires.new) result }
    ensures downs { (d : Declared) (h : List NodeEntry) (was : HeldState Stored) → IsOut (H.records held.old) d h inside.now works.now sites was (H.state held.old) → KnowsOpening h (length sites.cells.items) room → AddsDownsOf (IsUnsoundFor (W.sound wires.old) (W.made wires.old) (own_flows works.now)) (H.records held.new) d h (H.state held.new) }
{
    let stop = run(rt, alloc, held, wires, gate, works, inside, sites, tasks);
    room.append(held);
    working(held, stop)
}

// Runs the jobs over the cells, and gives all back.
fn run<R: Threads + Wait + Sync, H: Held<Node = Node>, W: Wires, G: Gate>(
    rt: &R,
    alloc: Global,
    held: &mut H,
    wires: &mut W,
    gate: &G,
    works: &[Work],
    inside: &[(u64, Command)],
    mut sites: Sites,
    mut tasks: Vec<Task<W::Wire>>,
) -> Result<Stop, NoMemory>
    requires can { (plan : Plan) × (h : List NodeEntry) × (owners : List Owner) × (streams : ℕ → ℕ) × CanStart plan h (length sites.cells.items) inside.now owners streams (H.state held.old) sites works.now }
    requires lines { (length inside.now ≤ 100000) × AllByRecursion (λ line. IsShort line.1) inside.now }
    requires slots { length sites.cells.items ≤ length (H.state held.old).nodes }
    requires nodes { (n : ℕ) → n < length sites.cells.items → get_or (H.state held.old).nodes n None ≡ None }
    requires empty { tasks.items ≡ [] }
    requires room { length works.now ≤ vec_capacity tasks }
    requires few { W.made wires.old + length works.now ≤ 2 ^ 40 }
    ensures ran { (plan : Plan) (h : List NodeEntry) (owners : List Owner) (streams : ℕ → ℕ) → CanStart plan h (length sites.cells.items) inside.now owners streams (H.state held.old) sites works.now → (r : HaveRun W.Wire W.Wire.state plan h inside.now (length sites.cells.items) streams (H.state held.old) (H.state held.new) works.now result) × AreClosed W.Wire.state r.jobs (W.carried wires.old) (W.carried wires.new) × HaveEndsOf (IsUnsoundFor (W.sound wires.old) (W.made wires.old) (own_flows works.now)) r.jobs }
    ensures records { (d : Declared) (h : List NodeEntry) → H.records held.old d h → H.records held.new d h }
    ensures places { (n : ℕ) → H.has_room held.old n → H.has_room held.new n }
    ensures made { W.made wires.new ≤ W.made wires.old + length works.now }
    ensures out { W.out wires.new ≡ W.out wires.old }
    ensures faults { W.faults wires.old ≤ W.faults wires.new }
    ensures sound { W.sound wires.new ≡ W.sound wires.old }
    ensures each_made { W.made wires.new ≡ W.made wires.old + length (own_flows works.now) }
    ensures lie { IsLieAt (IsUnsoundFor (W.sound wires.old) (W.made wires.old) (own_flows works.now)) result }
{
    start(held, wires, &mut sites, works, &mut tasks);
    run_jobs(rt, gate, alloc, sites.cells.as_slice(), inside, &mut tasks);
    let stop = end(held, wires, &mut sites, tasks);
    sites.close(held);
    stop
}

fn run_jobs<R: Threads + Wait + Sync, G: Gate, W: Wire + Send>(
    rt: &R,
    gate: &G,
    alloc: Global,
    cells: &[Cell<PhaseNode>],
    inside: &[(u64, Command)],
    tasks: &mut Vec<Task<W>>,
)
    requires ready { (plan : Plan) × (h : List NodeEntry) × ((k : ℕ) (t : Task W) → slice_get tasks.old.items k ≡ Some t → IsReady plan h cells.now W.state t) }
    requires lines { (length inside.now ≤ 100000) × AllByRecursion (λ line. IsShort line.1) inside.now }
    ensures many { length tasks.new.items ≡ length tasks.old.items }
    ensures done { (plan : Plan) (h : List NodeEntry) → ((k : ℕ) (t : Task W) → slice_get tasks.old.items k ≡ Some t → IsReady plan h cells.now W.state t) → (k : ℕ) (u : Task W) → slice_get tasks.new.items k ≡ Some u → (xs : List New) × IsDone plan h inside.now cells.now k u xs × JobCrosses W.state u xs }
    ensures stay { (k : ℕ) (t u : Task W) → slice_get tasks.old.items k ≡ Some t → slice_get tasks.new.items k ≡ Some u → StaysJob t u }
    ensures honest { (k : ℕ) (t u : Task W) → slice_get tasks.old.items k ≡ Some t → slice_get tasks.new.items k ≡ Some u → IsHonest W.state t u }
{
    run_all(rt, gate, alloc, cells, inside, tasks.as_mut_slice());
}

// How many nodes there are.
fn count_nodes<H: Held<Node = Node>>(held: &H) -> u32
    requires { (length (H.state held.now).nodes ≤ 32) × AreAllHere (H.state held.now).nodes }
    ensures { result ≡ length (H.state held.now).nodes }
{
    let mut count = 0;
    while count < 32 && is_here(held, count) {
        count += 1;
    }
    count
}

fn is_here<H: Held<Node = Node>>(held: &H, node: u32) -> bool
    requires { AreAllHere (H.state held.now).nodes }
    ensures { result ≡ nat_lt node (length (H.state held.now).nodes) }
{
    match held.journal(node) {
        Some(_) => true,
        None => false,
    }
}

// Want of memory, where all jobs went their way and some node was refused memory all the same.
fn working<H: Held<Node = Node>>(
    held: &mut H,
    stop: Result<Stop, NoMemory>,
) -> Result<Stop, NoMemory>
    requires { (length (H.state held.old).nodes ≤ 32) × AreAllHere (H.state held.old).nodes }
    ensures state { H.state held.new ≡ H.state held.old }
    ensures records { (d : Declared) (h : List NodeEntry) → H.records held.old d h → H.records held.new d h }
    ensures stop { (result ≡ stop) ⊎ (result ≡ Err (record {})) }
    ensures works { result ≡ Ok stops.Went → AllWork (H.state held.new) }
{
    let count = count_nodes(held);
    if all_work(held, count) {
        stop
    } else {
        Err(NoMemory)
    }
}

// Whether no node was refused memory.
fn all_work<H: Held<Node = Node>>(held: &mut H, count: u32) -> bool
    requires { (count ≡ length (H.state held.old).nodes) × AreAllHere (H.state held.old).nodes }
    ensures state { H.state held.new ≡ H.state held.old }
    ensures records { (d : Declared) (h : List NodeEntry) → H.records held.old d h → H.records held.new d h }
    ensures works { IsTrue result → AllWork (H.state held.new) }
{
    for node in 0..count {
        if is_spent(held, node) {
            return false;
        }
    }
    true
}

fn is_spent<H: Held<Node = Node>>(held: &mut H, node: u32) -> bool
    requires { (node < length (H.state held.old).nodes) × AreAllHere (H.state held.old).nodes }
    ensures state { H.state held.new ≡ H.state held.old }
    ensures records { (d : Declared) (h : List NodeEntry) → H.records held.old d h → H.records held.new d h }
    ensures spent { (m : Stored) → get_or (H.state held.old).nodes node None ≡ Some m → result ≡ m.spent }
{
    let Some(value) = held.take_node(node) else {
        unreachable!()
    };
    let spent = value.is_spent();
    held.give_node(node, value);
    spent
}
