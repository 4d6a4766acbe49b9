// The lines of one job of a phase.
ghost use Rattle.pr_script.specs.Steps.{owner_of, turns_in};
ghost use Rattle.pr_script.specs.declared.owner.Owner.TheVariants as owner;
ghost use Rattle.pr_text.specs.Steps.{is_owned_by, lines_by, turns_by};
ghost use Rattle.std.specs.Prelude.{◌≡◌, ◌≤◌, length};

use pr_script::{Command, Owner, is_same_owner, owner_of};

/// Whether the line is one of this job. Constant time.
pub fn is_owned_by(mine: Owner, command: &Command) -> bool
    ensures { result ≡ is_owned_by mine (owner_of command.now) }
{
    match owner_of(command) {
        Some(owner) => is_same_owner(owner, mine),
        None => false,
    }
}

/// How many of the lines are of this job, in one walk over them.
pub fn count_lines(mine: Owner, inside: &[(u64, Command)]) -> usize
    ensures count { result ≡ length (lines_by mine inside.now) }
    ensures few { result ≤ length inside.now }
{
    let mut lines = 0;
    for line in inside {
        lines += usize::from(is_owned_by(mine, &line.1));
    }
    lines
}

/// The turns of a stream's flow, in one walk over the lines.
pub fn turns_of(stream: u32, inside: &[(u64, Command)]) -> u64
    requires few { turns_in inside.now ≤ 1000000 }
    ensures turns { result ≡ turns_in (lines_by (owner.Stream stream) inside.now) }
    ensures few { result ≤ 1000000 }
{
    let mut turns = 0;
    for line in inside {
        turns += turns_by(stream, &line.1);
    }
    turns
}

// The turns of a line, if it is of the stream's flow.
fn turns_by(stream: u32, command: &Command) -> u64
    ensures { result ≡ turns_by stream command.now }
{
    match command {
        Command::Flow {
            stream: flowing,
            turns,
        } if *flowing == stream => *turns,
        _ => 0,
    }
}
