// Jobs get what they work with before they run, and give it back afterwards.
ghost use Rattle.pr_crew.specs.Crossing.{AreClosed, ClosesJob, IsClosed};
ghost use Rattle.pr_crew.specs.Starting.{CanEnd, CanEndOne, CanStart, CanStartOne, EndsOne, HaveEnded, HaveStarted, StartsOne};
ghost use Rattle.pr_crew.specs.Tasks.{HasKnownWire, IsSoundWire, count_of, first_of_two, first_stop, stop_of, stop_of_client, stop_of_fault, stop_of_flow, wires_of};
ghost use Rattle.pr_crew.specs.Works.{own_flow, own_flows};
ghost use Rattle.pr_flow.specs.Downs.{IsUnsoundFor};
ghost use Rattle.pr_inval.specs.Standing.{Remembered};
ghost use Rattle.pr_script.specs.Steps.{Numbered};
ghost use Rattle.pr_script.specs.declared.owner.Owner.{Owner};
ghost use Rattle.pr_story.specs.Counts.{Declared};
ghost use Rattle.pr_story.specs.History.{NodeEntry, Plan};
ghost use Rattle.pr_wires.specs.Calls.{IsUnused};
ghost use Rattle.std.specs.Prelude.{◌≡◌, ◌<◌, ◌≤◌, ◌+◌, ◌^◌, ◌++◌, [], ◌∷◌, ℕ, All, IfSome, IsTrue, List, None, Some, get_or, length, map, slice_set, sum_by, vec_capacity, vec_len};

use crate::sites::Sites;
use crate::task::{ClientTask, FlowTask, Task};
use crate::work::Work;
use pr_flow::{FlowEnd, Stop};
use pr_inval::{NodeFault, Session};
use pr_merge::Held;
use pr_node::Node;
use pr_stamps::NoMemory;
use pr_wires::Wires;

/// Gives each job its passes, and each flow its session and its connection, in the order of the jobs.
pub(crate) fn start<H: Held<Node = Node>, W: Wires>(
    held: &mut H,
    wires: &mut W,
    sites: &mut Sites,
    works: &[Work],
    tasks: &mut Vec<Task<W::Wire>>,
)
    requires can { (plan : Plan) × (h : List NodeEntry) × (count : ℕ) × (inside : List Numbered) × (owners : List Owner) × (streams : ℕ → ℕ) × CanStart plan h count inside owners streams (H.state held.old) sites.old works.now }
    requires empty { tasks.old.items ≡ [] }
    requires room { length works.now ≤ vec_capacity tasks.old }
    requires few { W.made wires.old + length works.now ≤ 2 ^ 40 }
    ensures cells { sites.new.cells ≡ sites.old.cells }
    ensures started { (plan : Plan) (h : List NodeEntry) (count : ℕ) (inside : List Numbered) (owners : List Owner) (streams : ℕ → ℕ) → CanStart plan h count inside owners streams (H.state held.old) sites.old works.now → HaveStarted W.Wire.state plan h count streams (H.state held.old) (H.state held.new) sites.new works.now (length works.now) tasks.new.items }
    ensures records { (d : Declared) (h : List NodeEntry) → H.records held.old d h → H.records held.new d h }
    ensures room { (n : ℕ) → H.has_room held.old n → H.has_room held.new n }
    ensures made { W.made wires.new ≤ W.made wires.old + length works.now }
    ensures out { W.out wires.new ≡ W.out wires.old + sum_by wires_of tasks.new.items }
    ensures faults { W.faults wires.old ≤ W.faults wires.new }
    ensures sound { W.sound wires.new ≡ W.sound wires.old }
    ensures carried { W.carried wires.new ≡ W.carried wires.old }
    ensures each_made { W.made wires.new ≡ W.made wires.old + length (own_flows works.now) }
    ensures known_wires { All (HasKnownWire W.Wire.state (IsUnsoundFor (W.sound wires.old) (W.made wires.old) (own_flows works.now))) tasks.new.items }
{
    for work in works {
        let task = start_one(held, wires, sites, work);
        tasks.push_reserved(task);
    }
}

fn start_one<H: Held<Node = Node>, W: Wires>(
    held: &mut H,
    wires: &mut W,
    sites: &mut Sites,
    work: &Work,
) -> Task<W::Wire>
    requires can { CanStartOne (H.state held.old) sites.old work.now }
    requires few { W.made wires.old < 2 ^ 40 }
    ensures cells { sites.new.cells ≡ sites.old.cells }
    ensures starts { StartsOne W.Wire.state (H.state held.old) (H.state held.new) sites.old sites.new work.now result }
    ensures records { (d : Declared) (h : List NodeEntry) → H.records held.old d h → H.records held.new d h }
    ensures room { (n : ℕ) → H.has_room held.old n → H.has_room held.new n }
    ensures made { W.made wires.new ≤ W.made wires.old + 1 }
    ensures out { W.out wires.new ≡ W.out wires.old + wires_of result }
    ensures faults { W.faults wires.old ≤ W.faults wires.new }
    ensures sound { W.sound wires.new ≡ W.sound wires.old }
    ensures carried { W.carried wires.new ≡ W.carried wires.old }
    ensures one_made { W.made wires.new ≡ W.made wires.old + length (own_flow work.now) }
    ensures known_wire { HasKnownWire W.Wire.state (IsUnsoundFor (W.sound wires.old) (W.made wires.old) (own_flow work.now)) result }
{
    match *work {
        Work::Client(work) => Task::Client(ClientTask {
            work,
            pass: sites.split(work.node),
            end: Ok(()),
        }),
        Work::Flow(work) => Task::Flow(FlowTask {
            work,
            source: sites.split(work.source),
            destination: sites.split(work.destination),
            session: held.take_session(work.stream),
            wire: connect(wires, work.source, work.destination),
            end: Ok(FlowEnd::Done),
        }),
    }
}

// A wire for a flow, if there is a connection.
fn connect<W: Wires>(wires: &mut W, from: u32, to: u32) -> Option<W::Wire>
    requires { W.made wires.old < 2 ^ 40 }
    ensures unused { IfSome result (λ w. IsUnused (W.Wire.state w)) }
    ensures made { W.made wires.new ≡ W.made wires.old + 1 }
    ensures out { W.out wires.new ≡ W.out wires.old + count_of result }
    ensures faults { W.faults wires.old ≤ W.faults wires.new }
    ensures sound { W.sound wires.new ≡ W.sound wires.old }
    ensures carried { W.carried wires.new ≡ W.carried wires.old }
    ensures sound_wire { IsTrue (W.sound wires.old (W.made wires.old + 1)) → IsSoundWire W.Wire.state result }
{
    match wires.connect(from, to) {
        Ok(wire) => Some(wire),
        Err(_) => None,
    }
}

/// Takes all of that back, in the order of the jobs. Answers how the first job ended that did not go its way.
pub(crate) fn end<H: Held<Node = Node>, W: Wires>(
    held: &mut H,
    wires: &mut W,
    sites: &mut Sites,
    mut tasks: Vec<Task<W::Wire>>,
) -> Result<Stop, NoMemory>
    requires can { (plan : Plan) × (h : List NodeEntry) × (count : ℕ) × (streams : ℕ → ℕ) × CanEnd plan h count streams (H.state held.old) sites.old tasks.items }
    requires out { sum_by wires_of tasks.items ≤ W.out wires.old }
    ensures ended { (plan : Plan) (h : List NodeEntry) (count : ℕ) (streams : ℕ → ℕ) → CanEnd plan h count streams (H.state held.old) sites.old tasks.items → HaveEnded plan h count streams (H.state held.old) (H.state held.new) sites.new tasks.items (length tasks.items) }
    ensures cells { sites.new.cells ≡ sites.old.cells }
    ensures stop { result ≡ first_stop (map stop_of tasks.items) }
    ensures records { (d : Declared) (h : List NodeEntry) → H.records held.old d h → H.records held.new d h }
    ensures room { (n : ℕ) → H.has_room held.old n → H.has_room held.new n }
    ensures out { W.out wires.new + sum_by wires_of tasks.items ≡ W.out wires.old }
    ensures same { (W.made wires.new ≡ W.made wires.old) × (W.sound wires.new ≡ W.sound wires.old) × (W.faults wires.new ≡ W.faults wires.old) }
    ensures carried { AreClosed W.Wire.state tasks.items (W.carried wires.old) (W.carried wires.new) }
{
    let mut stop = Ok(Stop::Went);
    tasks.reverse();
    while let Some(task) = tasks.pop() {
        let next = end_one(held, wires, sites, task);
        stop = first(stop, next);
    }
    tasks.destroy_empty();
    stop
}

// The first of two stops that is not that all went its way.
fn first(one: Result<Stop, NoMemory>, next: Result<Stop, NoMemory>) -> Result<Stop, NoMemory>
    ensures { result ≡ first_of_two one next }
{
    match one {
        Ok(Stop::Went) => next,
        stop => stop,
    }
}

fn end_one<H: Held<Node = Node>, W: Wires>(
    held: &mut H,
    wires: &mut W,
    sites: &mut Sites,
    task: Task<W::Wire>,
) -> Result<Stop, NoMemory>
    requires can { CanEndOne (H.state held.old) sites.old task }
    requires out { wires_of task ≤ W.out wires.old }
    ensures cells { sites.new.cells ≡ sites.old.cells }
    ensures ends { EndsOne (H.state held.old) (H.state held.new) sites.old sites.new task }
    ensures stop { result ≡ stop_of task }
    ensures records { (d : Declared) (h : List NodeEntry) → H.records held.old d h → H.records held.new d h }
    ensures room { (n : ℕ) → H.has_room held.old n → H.has_room held.new n }
    ensures out { W.out wires.new + wires_of task ≡ W.out wires.old }
    ensures same { (W.made wires.new ≡ W.made wires.old) × (W.sound wires.new ≡ W.sound wires.old) × (W.faults wires.new ≡ W.faults wires.old) }
    ensures carried { ClosesJob W.Wire.state task (W.carried wires.old) (W.carried wires.new) }
{
    match task {
        Task::Client(ClientTask { work, pass, end }) => {
            sites.join(work.node, pass);
            stop_of_client(end)
        }
        Task::Flow(
            FlowTask {
                work,
                source,
                destination,
                session,
                wire,
                end,
            },
        ) => {
            sites.join(work.source, source);
            sites.join(work.destination, destination);
            give_session(held, work.stream, session);
            close(wires, wire);
            stop_of_flow(work.stream, end)
        }
    }
}

fn give_session<H: Held<Node = Node>>(held: &mut H, stream: u32, session: Option<Session>)
    requires here { (x : Remembered) × (session ≡ Some x) }
    requires out { (stream < length (H.state held.old).sessions) × (get_or (H.state held.old).sessions stream None ≡ None) }
    ensures state { H.state held.new ≡ record { nodes = (H.state held.old).nodes; sessions = slice_set (H.state held.old).sessions stream session; clients = (H.state held.old).clients; places = (H.state held.old).places } }
    ensures records { (d : Declared) (h : List NodeEntry) → H.records held.old d h → H.records held.new d h }
    ensures room { (n : ℕ) → H.has_room held.old n → H.has_room held.new n }
{
    match session {
        Some(session) => held.give_session(stream, session),
        None => unreachable!(),
    }
}

fn close<W: Wires>(wires: &mut W, wire: Option<W::Wire>)
    requires { count_of wire ≤ W.out wires.old }
    ensures out { W.out wires.new + count_of wire ≡ W.out wires.old }
    ensures same { (W.made wires.new ≡ W.made wires.old) × (W.sound wires.new ≡ W.sound wires.old) × (W.faults wires.new ≡ W.faults wires.old) }
    ensures carried { IsClosed W.Wire.state wire (W.carried wires.old) (W.carried wires.new) }
{
    if let Some(wire) = wire {
        wires.close(wire);
    }
}

// How a phase stops whose first job to fail is a client's that ended so.
fn stop_of_client(end: Result<(), NodeFault>) -> Result<Stop, NoMemory>
    ensures { result ≡ stop_of_client end }
{
    match end {
        Ok(()) => Ok(Stop::Went),
        Err(fault) => stop_of_fault(fault),
    }
}

// The same of a stream's flow.
fn stop_of_flow(stream: u32, end: Result<FlowEnd, NodeFault>) -> Result<Stop, NoMemory>
    ensures { result ≡ stop_of_flow stream end }
{
    match end {
        Ok(FlowEnd::Lied { number, sent, got }) => Ok(Stop::Lied {
            stream,
            number,
            sent,
            got,
        }),
        Ok(_) => Ok(Stop::Went),
        Err(fault) => stop_of_fault(fault),
    }
}

fn stop_of_fault(fault: NodeFault) -> Result<Stop, NoMemory>
    ensures { result ≡ stop_of_fault fault }
{
    match fault {
        NodeFault::Worn { at } => Ok(Stop::Worn { at }),
        NodeFault::NoMemory => Err(NoMemory),
    }
}
