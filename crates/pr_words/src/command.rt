// The command that is handed to clap.
ghost use Rattle.clap.specs.Words.{app_of, rule_of};
ghost use Rattle.pr_words.specs.Command.{bare_app, mode_rule, option_rule, practi};
ghost use Rattle.std.specs.Prelude.{◌≡◌, IfOk, false};

use clap::{Arg, Command};
use pr_stamps::NoMemory;
use std::alloc::Global;

/// One simple command without help: the mode, and the options, each with one value.
pub fn practi<'a>(alloc: Global) -> Result<Command<'a>, NoMemory>
    ensures { IfOk result (λ c. app_of c ≡ practi) }
{
    let command = bare(alloc)
        .arg(mode(alloc))?
        .arg(option(alloc, "seed"))?
        .arg(option(alloc, "size"))?
        .arg(option(alloc, "stop"))?
        .arg(option(alloc, "node"))?;
    Ok(command)
}

// The command without its arguments: the words lack the program's name.
fn bare<'a>(alloc: Global) -> Command<'a>
    ensures { app_of result ≡ bare_app }
{
    Command::new(alloc, "practi")
        .no_binary_name(true)
        .disable_help_flag(true)
}

fn mode<'a>(alloc: Global) -> Arg<'a>
    ensures rule { rule_of result ≡ mode_rule }
    ensures own { result.global ≡ false }
{
    Arg::new(alloc, "mode").required(true)
}

fn option<'a>(alloc: Global, name: &'a str) -> Arg<'a>
    ensures rule { rule_of result ≡ option_rule name.entry.now }
    ensures own { result.global ≡ false }
{
    Arg::new(alloc, name).long(name)
}
