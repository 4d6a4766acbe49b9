// A script's lines.
ghost use Rattle.pr_script.specs.Steps.{AreWhole, is_phase};
ghost use Rattle.pr_text.specs.Plain.{IsFirst, line_seen};
ghost use Rattle.pr_text.specs.Steps.{line_of, lines_of};
ghost use Rattle.std.specs.Prelude.{◌≡◌, ◌∷◌, IfOk, map};

use super::jobs::jobs_of;
use super::line::{Asked, Line};
use pr_script::{Command, phase_len};
use pr_stamps::{NoMemory, Seq};
use std::alloc::Global;

/// The lines of a script's commands, in time linear in them and, in each phase, in its lines for each job.
pub fn lines_of(alloc: Global, commands: &[(u64, Command)]) -> Result<Seq<Line>, NoMemory>
    requires { AreWhole commands.now }
    ensures { IfOk result (λ lines. map line_seen lines ≡ lines_of commands.now) }
{
    let mut lines = Seq::new(alloc);
    let mut at = 0;
    while at < commands.len() {
        let (line, len) = first_line(alloc, &commands[at], &commands[at + 1..])?;
        lines.push(line)?;
        at += len + 1;
    }
    Ok(lines)
}

// The line that begins with a command, and how many of the commands behind belong to it.
fn first_line(
    alloc: Global,
    first: &(u64, Command),
    behind: &[(u64, Command)],
) -> Result<(Line, usize), NoMemory>
    requires { AreWhole (first.now ∷ behind.now) }
    ensures { IfOk result (λ r. IsFirst (first.now ∷ behind.now) behind.now (line_seen r.0) r.1) }
{
    if !is_phase(&first.1) {
        return Ok((line_of(alloc, &first.1)?, 0));
    }
    let len = phase_len(behind);
    let jobs = jobs_of(alloc, &behind[..len])?;
    Ok((Line::Phase(jobs), len + 1))
}

fn is_phase(command: &Command) -> bool
    ensures { result ≡ is_phase command.now }
{
    matches!(command, Command::Phase)
}

/// The line of a command. The words of a phase have none of their own, and give nothing.
pub fn line_of(alloc: Global, command: &Command) -> Result<Line, NoMemory>
    ensures { IfOk result (λ line. line_seen line ≡ line_of command.now) }
{
    Ok(match command {
        Command::Attach { stream } => Line::Single(Asked::Attach(*stream)),
        Command::Detach { stream } => Line::Detach(*stream),
        Command::Send { stream } => Line::Single(Asked::Send(*stream)),
        Command::Checkpoint { stream } => Line::Single(Asked::Checkpoint(*stream)),
        Command::Deliver { stream, number } => Line::Single(Asked::Deliver(*stream, *number)),
        Command::Flow { stream, turns } => Line::Flow(*stream, *turns),
        Command::Write { client, name, body } => {
            let body = Seq::copied(alloc, body.as_slice())?;
            Line::Single(Asked::Write(*client, *name, body, false))
        }
        Command::Delete { client, name } => {
            Line::Single(Asked::Write(*client, *name, Seq::new(alloc), true))
        }
        Command::Read { client, name } => Line::Single(Asked::Read(*client, *name)),
        Command::Move { client, node } => Line::Single(Asked::Move(*client, *node)),
        Command::Expect { .. } => Line::Expect,
        Command::Cut { node } => Line::Single(Asked::Cut(*node)),
        Command::State { node } => Line::Single(Asked::State(*node)),
        Command::Drop { node, name } => Line::Single(Asked::Drop(*node, *name)),
        Command::Conflicts { node, name } => Line::Single(Asked::Conflicts(*node, *name)),
        Command::Settle => Line::Settle,
        Command::Phase => Line::Phase(Seq::new(alloc)),
        Command::End => Line::Phase(Seq::new(alloc)),
    })
}
