// What each job of a phase works on is looked up before the nodes are lent to them.
ghost use Rattle.pr_crew.specs.Works.{AreWorks, CanPlan, IsSmall, IsWork, first_line};
ghost use Rattle.pr_script.specs.Steps.{turns_in};
ghost use Rattle.pr_story.specs.Counts.{Declared};
ghost use Rattle.pr_story.specs.History.{NodeEntry};
ghost use Rattle.std.specs.Prelude.{◌≡◌, ◌≤◌, List, All, IfOk, length};

use crate::work::{ClientWork, FlowWork, Work};
use pr_merge::Held;
use pr_script::{Command, Owner};
use pr_stamps::NoMemory;
use pr_text::{count_lines, is_owned_by, turns_of};
use std::alloc::Global;

/// What each of these jobs works on, in their order. It reads the lines once for each job.
pub(crate) fn plan<H: Held>(
    alloc: Global,
    held: &H,
    owners: &[Owner],
    inside: &[(u64, Command)],
) -> Result<Vec<Work>, NoMemory>
    requires known { All (CanPlan (H.state held.now)) owners.now }
    requires records { (d : Declared) × (h : List NodeEntry) × H.records held.now d h }
    requires few { (length inside.now ≤ 100000) × (turns_in inside.now ≤ 1000000) }
    ensures works { (d : Declared) (h : List NodeEntry) → H.records held.now d h → IfOk result (λ v. AreWorks d.plan h (length (H.state held.now).nodes) inside.now owners.now v.items) }
    ensures small { IfOk result (λ v. All IsSmall v.items) }
{
    let mut works = Vec::new(alloc);
    for owner in owners {
        works.push(work_of(held, *owner, inside))?;
    }
    Ok(works)
}

fn work_of<H: Held>(held: &H, owner: Owner, inside: &[(u64, Command)]) -> Work
    requires known { CanPlan (H.state held.now) owner }
    requires records { (d : Declared) × (h : List NodeEntry) × H.records held.now d h }
    requires few { (length inside.now ≤ 100000) × (turns_in inside.now ≤ 1000000) }
    ensures work { (d : Declared) (h : List NodeEntry) → H.records held.now d h → IsWork d.plan h (length (H.state held.now).nodes) inside.now owner result }
    ensures small { IsSmall result }
{
    match owner {
        Owner::Client(client) => Work::Client(ClientWork {
            client,
            node: held.home(client),
            seen: held.client(client),
            lines: count_lines(owner, inside) as u64,
        }),
        Owner::Stream(stream) => {
            let (source, destination) = held.route(stream);
            Work::Flow(FlowWork {
                stream,
                source,
                destination,
                line: first_line(owner, inside),
                turns: turns_of(stream, inside),
            })
        }
    }
}

// The number of the job's first line.
fn first_line(mine: Owner, inside: &[(u64, Command)]) -> u64
    ensures { result ≡ first_line mine inside.now }
{
    for line in inside {
        if is_owned_by(mine, &line.1) {
            return line.0;
        }
    }
    0
}
