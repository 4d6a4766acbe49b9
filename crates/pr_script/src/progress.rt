// What the lines so far said.
ghost use Rattle.pr_script.specs.Answers.{Told};
ghost use Rattle.pr_script.specs.Labels.{IsNew};
ghost use Rattle.pr_script.specs.Reading.{Fits, answer_of, next, passed, start, told};
ghost use Rattle.pr_script.specs.declared.item.Item.TheVariants as items;
ghost use Rattle.std.specs.Prelude.{◌≡◌, ◌+◌, Err, IfOk, Ok, OnOk};

use crate::item::Item;
use crate::known::Known;
use crate::lines::{item, skipped};
use crate::refusal::Refusal;
use crate::{Command, Decl, Script, ScriptFault};
use pr_stamps::{NoMemory, Seq};
use std::alloc::Global;
use std::marker::Model;

/// How many lines were read, what they leave for later ones, their commands, and the first that broke a rule.
#[derive(Drop)]
pub struct Progress {
    lines: u64,
    known: Known,
    commands: Seq<(u64, Command)>,
    fault: Option<(u64, u8)>,
}

impl Model for Progress {
    ghost use Rattle.pr_script.specs.Reading.{Sofar};

    ghost Value = { Sofar };

    ghost view = { λ p. record { lines = p.lines; known = p.known; commands = p.commands; fault = p.fault } };
}

// The number after this one. A script of 2^64 lines is none that memory has.
fn one_more(lines: u64) -> Result<u64, NoMemory>
    ensures { IfOk result (λ n. n ≡ lines + 1) }
{
    match lines.checked_add(1) {
        Some(lines) => Ok(lines),
        None => Err(NoMemory),
    }
}

impl Progress {
    pub fn new(alloc: Global) -> Progress
        ensures { result ≡ start }
    {
        Progress {
            lines: 0,
            known: Known::new(alloc),
            commands: Seq::new(alloc),
            fault: None,
        }
    }

    fn pass(&mut self) -> Result<(), NoMemory>
        ensures { OnOk result (self.new ≡ passed self.old) }
    {
        self.lines = one_more(self.lines)?;
        Ok(())
    }

    fn refuse(&mut self, why: u8) -> Result<(), NoMemory>
        ensures { OnOk result (self.new ≡ told self.old (Err why)) }
    {
        let lines = one_more(self.lines)?;
        self.fault = Some((lines, why));
        self.lines = lines;
        Ok(())
    }

    fn declare(&mut self, decl: Decl) -> Result<(), NoMemory>
        requires { IsNew self.old.known.decls decl }
        ensures { OnOk result (self.new ≡ told self.old (Ok (items.Decl decl))) }
    {
        let lines = one_more(self.lines)?;
        self.known.declare(decl)?;
        self.lines = lines;
        Ok(())
    }

    fn command(&mut self, command: Command) -> Result<(), NoMemory>
        requires { Fits self.old.known (items.Command command) }
        ensures { OnOk result (self.new ≡ told self.old (Ok (items.Command command))) }
    {
        let lines = one_more(self.lines)?;
        self.known.note(&command)?;
        self.commands.push((lines, command))?;
        self.lines = lines;
        Ok(())
    }

    /// One more line.
    #[tactic(auto, unfolding(crate::specs::Reading::next))]
    pub fn line(&mut self, alloc: Global, line: &[u8]) -> Result<(), NoMemory>
        ensures { OnOk result (self.new ≡ next self.old line.now) }
    {
        if self.fault.is_some() || skipped(line) {
            return self.pass();
        }
        match item(alloc, &self.known, line) {
            Ok(Item::Decl(decl)) => self.declare(decl),
            Ok(Item::Command(command)) => self.command(command),
            Err(Refusal::Why(why)) => self.refuse(why),
            Err(Refusal::NoMemory) => Err(NoMemory),
        }
    }

    /// The script, or the first fault.
    pub fn answer(self) -> Result<Script, ScriptFault>
        ensures { Told result (answer_of self) }
    {
        let Progress {
            lines,
            known,
            commands,
            fault,
        } = self;
        if let Some((line, why)) = fault {
            return Err(ScriptFault::Bad { line, why });
        }
        if known.in_phase {
            return match lines.checked_add(1) {
                Some(line) => Err(ScriptFault::Bad { line, why: 12 }),
                None => Err(ScriptFault::NoMemory),
            };
        }
        Ok(Script {
            decls: known.decls.into_decls(),
            commands,
        })
    }
}
