// The jobs of a phase.
ghost use Rattle.pr_script.specs.Known.{turns_after};
ghost use Rattle.pr_script.specs.Steps.{owner_of, turns_in};
ghost use Rattle.pr_text.specs.Plain.{asked_seen, job_seen};
ghost use Rattle.pr_text.specs.Steps.{is_owned_by, job_of, jobs_of, line_of, lines_by, single_of};
ghost use Rattle.std.specs.List.{flat_map};
ghost use Rattle.std.specs.Prelude.{◌≡◌, IfOk, OnOk, ◌++◌, map};

use super::line::{Asked, Job, Line};
use super::lines::line_of;
use pr_script::{Command, Owner, is_same_owner, owner_of, owners};
use pr_stamps::{NoMemory, Seq};
use std::alloc::Global;

/// The jobs of a phase with these lines, in the order of their first lines, in time linear in the lines for each job.
pub fn jobs_of(alloc: Global, inside: &[(u64, Command)]) -> Result<Seq<Job>, NoMemory>
    ensures { IfOk result (λ jobs. map job_seen jobs ≡ jobs_of inside.now) }
{
    let owners = owners(alloc, inside)?;
    jobs_by(alloc, inside, owners.as_slice())
}

fn jobs_by(alloc: Global, inside: &[(u64, Command)], owners: &[Owner]) -> Result<Seq<Job>, NoMemory>
    ensures { IfOk result (λ jobs. map job_seen jobs ≡ map (job_of inside.now) owners.now) }
{
    let mut jobs = Seq::new(alloc);
    for owner in owners {
        jobs.push(job_of(alloc, inside, *owner)?)?;
    }
    Ok(jobs)
}

fn job_of(alloc: Global, inside: &[(u64, Command)], owner: Owner) -> Result<Job, NoMemory>
    ensures { IfOk result (λ job. job_seen job ≡ job_of inside.now owner) }
{
    match owner {
        Owner::Client(_) => Ok(Job::Client(asked_by(alloc, inside, owner)?)),
        Owner::Stream(stream) => {
            let turns = turns_by(inside, owner)?;
            Ok(Job::Flow(stream, turns))
        }
    }
}

// What the owner's lines ask for.
fn asked_by(alloc: Global, inside: &[(u64, Command)], owner: Owner) -> Result<Seq<Asked>, NoMemory>
    ensures { IfOk result (λ asked. map asked_seen asked ≡ flat_map (λ c. single_of (line_of c.1)) (lines_by owner inside.now)) }
{
    let mut asked = Seq::new(alloc);
    for line in inside {
        if is_owned_by(owner, &line.1) {
            add(alloc, &mut asked, &line.1)?;
        }
    }
    Ok(asked)
}

fn add(alloc: Global, asked: &mut Seq<Asked>, command: &Command) -> Result<(), NoMemory>
    ensures { OnOk result (map asked_seen asked.new ≡ map asked_seen asked.old ++ single_of (line_of command.now)) }
{
    if let Line::Single(one) = line_of(alloc, command)? {
        asked.push(one)?;
    }
    Ok(())
}

// The turns of the owner's flows. More than 2^64 are none that memory has lines for.
fn turns_by(inside: &[(u64, Command)], owner: Owner) -> Result<u64, NoMemory>
    ensures { IfOk result (λ turns. turns ≡ turns_in (lines_by owner inside.now)) }
{
    let mut turns: u64 = 0;
    for line in inside {
        if is_owned_by(owner, &line.1) {
            turns = with_turns(turns, &line.1)?;
        }
    }
    Ok(turns)
}

fn with_turns(turns: u64, command: &Command) -> Result<u64, NoMemory>
    ensures { IfOk result (λ sum. sum ≡ turns_after command.now turns) }
{
    match command {
        Command::Flow { turns: more, .. } => match turns.checked_add(*more) {
            Some(sum) => Ok(sum),
            None => Err(NoMemory),
        },
        _ => Ok(turns),
    }
}

fn is_owned_by(owner: Owner, command: &Command) -> bool
    ensures { result ≡ is_owned_by owner (owner_of command.now) }
{
    match owner_of(command) {
        Some(other) => is_same_owner(other, owner),
        None => false,
    }
}
