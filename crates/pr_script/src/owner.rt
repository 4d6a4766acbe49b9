// The jobs of a phase.
ghost use Rattle.pr_script.specs.Steps.{has_owner, is_end, is_same_owner, owner_of, owners_of, with_owner};
ghost use Rattle.std.specs.List.{position_or_len};
ghost use Rattle.std.specs.Prelude.{◌≡◌, IfOk, OnOk, Some};

use crate::Command;
use pr_stamps::{NoMemory, Seq};
use std::alloc::Global;

/// Whose a line of a phase is. All lines of a client are one job, and each flow of a stream is one.
#[derive(Clone, Copy)]
pub enum Owner {
    Client(u32),
    Stream(u32),
}

/// Whose the line is, where it may stand in a phase.
pub fn owner_of(command: &Command) -> Option<Owner>
    ensures { result ≡ owner_of command.now }
{
    match command {
        Command::Write { client, .. } => Some(Owner::Client(*client)),
        Command::Delete { client, .. } => Some(Owner::Client(*client)),
        Command::Read { client, .. } => Some(Owner::Client(*client)),
        Command::Flow { stream, .. } => Some(Owner::Stream(*stream)),
        _ => None,
    }
}

/// Whether two lines with these owners are of one job.
pub fn is_same_owner(one: Owner, other: Owner) -> bool
    ensures { result ≡ is_same_owner one other }
{
    match (one, other) {
        (Owner::Client(a), Owner::Client(b)) => a == b,
        (Owner::Stream(a), Owner::Stream(b)) => a == b,
        _ => false,
    }
}

/// The jobs of these lines of a phase, each once, in the order of their first lines, in time linear in the lines for
/// each job.
pub fn owners(alloc: Global, inside: &[(u64, Command)]) -> Result<Seq<Owner>, NoMemory>
    ensures { IfOk result (λ owners. owners ≡ owners_of inside.now) }
{
    let mut owners = Seq::new(alloc);
    for line in inside {
        if let Some(owner) = owner_of(&line.1) {
            add(&mut owners, owner)?;
        }
    }
    Ok(owners)
}

fn add(owners: &mut Seq<Owner>, owner: Owner) -> Result<(), NoMemory>
    ensures { OnOk result (owners.new ≡ with_owner owners.old (Some owner)) }
{
    if has(owners.as_slice(), owner) {
        return Ok(());
    }
    owners.push(owner)
}

fn has(owners: &[Owner], owner: Owner) -> bool
    ensures { result ≡ has_owner owners.now owner }
{
    owners.iter().any(|o| is_same_owner(*o, owner))
}

/// How many of the lines behind a `phase` stand before its `end`.
pub fn phase_len(behind: &[(u64, Command)]) -> usize
    ensures { result ≡ position_or_len (λ c. is_end c.1) behind.now }
{
    let mut len = 0;
    for line in behind {
        if matches!(line.1, Command::End) {
            return len;
        }
        len += 1;
    }
    len
}
