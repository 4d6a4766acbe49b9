// A client's job.
ghost use Rattle.pr_cell.specs.Passes.{IsPassOf};
ghost use Rattle.pr_crew.specs.Asking.{IsShort};
ghost use Rattle.pr_crew.specs.Clients.{CallsLine, EndsLine, IsSofar};
ghost use Rattle.pr_crew.specs.Jobs.{ClientDone};
ghost use Rattle.pr_crew.specs.Making.{IsCellOf, IsSameCaller, Makes};
ghost use Rattle.pr_crew.specs.Stories.{stories};
ghost use Rattle.pr_inval.specs.Standing.{Standing};
ghost use Rattle.pr_node.specs.Calls.{IsWriteWorn};
ghost use Rattle.pr_script.specs.Steps.{owner_of};
ghost use Rattle.pr_script.specs.declared.owner.Owner.TheVariants as owner;
ghost use Rattle.pr_story.specs.History.{NodeEntry, Plan};
ghost use Rattle.pr_story.specs.Merging.{New};
ghost use Rattle.pr_text.specs.Steps.{is_owned_by, job_of};
ghost use Rattle.std.specs.List.{AllByRecursion};
ghost use Rattle.std.specs.Prelude.{ℕ, List, [], ◌≡◌, ◌<◌, ◌≤◌, ◌+◌, ◌^◌, length, true};

use crate::client_calls::{delete, read, write};
use crate::{Gate, PhaseNode};
use pr_cell::{Cell, Pass};
use pr_inval::NodeFault;
use pr_script::{Command, Owner};
use pr_text::is_owned_by;
use pr_vectors::Vector;
use std::sync::Wait;

/// Runs all lines of a client in a phase, in their order, at the cell of the node where it stands; it has seen this
/// vector. It calls the gate before each of its lines. A line takes one turn, and the first one that is refused is the
/// last one.
pub(crate) fn client_job<R: Wait, G: Gate>(
    rt: &R,
    gate: &G,
    cell: &Cell<PhaseNode>,
    pass: Pass<PhaseNode>,
    client: u32,
    seen: Vector,
    inside: &[(u64, Command)],
) -> (Pass<PhaseNode>, Result<(), NodeFault>)
    requires pass { IsPassOf stories cell.now pass }
    requires room { pass.turns + length inside.now ≤ 2 ^ 40 }
    requires short { AllByRecursion (λ line. IsShort line.1) inside.now }
    ensures pass { IsPassOf stories cell.now result.0 × IsSameCaller pass result.0 }
    ensures done { (plan : Plan) (h : List NodeEntry) (n k : ℕ) → IsCellOf plan h n cell.now → IsSofar plan h n client k pass seen [] → (xs : List New) × ClientDone plan h n client k (job_of inside.now (owner.Client client)) result.0 result.1 xs }
{
    let mut pass = pass;
    let mut seen = seen;
    for line in inside {
        let (next, done) = run_line(rt, gate, cell, pass, client, &mut seen, line);
        pass = next;
        match done {
            Ok(()) => {}
            Err(fault) => return (pass, Err(fault)),
        }
    }
    (pass, Ok(()))
}

// Runs a line if it is one of the client, which has seen this vector.
fn run_line<R: Wait, G: Gate>(
    rt: &R,
    gate: &G,
    cell: &Cell<PhaseNode>,
    pass: Pass<PhaseNode>,
    client: u32,
    seen: &mut Vector,
    line: &(u64, Command),
) -> (Pass<PhaseNode>, Result<(), NodeFault>)
    requires pass { IsPassOf stories cell.now pass }
    requires room { pass.turns < 2 ^ 40 }
    requires short { IsShort line.now.1 }
    ensures pass { IsPassOf stories cell.now result.0 × IsSameCaller pass result.0 × (result.0.turns ≤ pass.turns + 1) }
    ensures ends { (plan : Plan) (h : List NodeEntry) (n k : ℕ) (xs : List New) → IsCellOf plan h n cell.now → IsSofar plan h n client k pass seen.old xs → EndsLine plan h n client k line.now xs result.0 seen.new result.1 }
{
    if !is_owned_by(Owner::Client(client), &line.1) {
        return (pass, Ok(()));
    }
    gate.reached(rt, line.0);
    let (pass, after) = call(rt, cell, pass, client, seen, &line.1);
    match after {
        Ok(after) => {
            *seen = after;
            (pass, Ok(()))
        }
        Err(fault) => (pass, Err(fault)),
    }
}

// Makes the call of a client's line. Answers what the client has seen then.
fn call<R: Wait>(
    rt: &R,
    cell: &Cell<PhaseNode>,
    pass: Pass<PhaseNode>,
    client: u32,
    seen: &Vector,
    command: &Command,
) -> (Pass<PhaseNode>, Result<Vector, NodeFault>)
    requires pass { IsPassOf stories cell.now pass }
    requires room { pass.turns < 2 ^ 40 }
    requires short { IsShort command.now }
    requires own { is_owned_by (owner.Client client) (owner_of command.now) ≡ true }
    ensures pass { IsPassOf stories cell.now result.0 × IsSameCaller pass result.0 × (result.0.turns ≡ pass.turns + 1) }
    ensures makes { (plan : Plan) (h : List NodeEntry) (n : ℕ) (sessions : ℕ → Standing) → IsCellOf plan h n cell.now → CallsLine plan h n sessions client command.now seen.now pass result.0 result.1 }
{
    match command {
        Command::Write { name, body, .. } => {
            write(rt, cell, pass, client, name, body.as_slice(), seen)
        }
        Command::Delete { name, .. } => delete(rt, cell, pass, client, name, seen),
        Command::Read { name, .. } => read(rt, cell, pass, client, name, seen),
        _ => unreachable!(),
    }
}
