// What a line may depend on.
ghost use Rattle.pr_script.specs.Known.{attached_after, clients_after, flows_after, known_after, nothing_known, phase_after, with_number};
ghost use Rattle.pr_script.specs.Labels.{IsNew};
ghost use Rattle.pr_script.specs.Reading.{Fits};
ghost use Rattle.pr_script.specs.declared.item.Item.TheVariants as items;
ghost use Rattle.std.specs.Prelude.{◌≡◌, OnOk, if◌then◌else◌};

use crate::numbers::Numbers;
use crate::table::Table;
use crate::{Command, Decl};
use pr_stamps::NoMemory;
use std::alloc::Global;

/// What the lines so far leave for later ones: the declarations, whether a command has stood, the sum of flow turns,
/// whether the last line was a read, the attached streams, whether a phase is open, and the clients and the flows of the
/// last phase.
#[derive(Drop)]
pub struct Known {
    pub decls: Table,
    pub begun: bool,
    pub turns: u64,
    pub after_read: bool,
    pub attached: Numbers,
    pub in_phase: bool,
    pub clients: Numbers,
    pub flows: Numbers,
}

impl Known {
    pub fn new(alloc: Global) -> Known
        ensures { result ≡ nothing_known }
    {
        Known {
            decls: Table::new(alloc),
            begun: false,
            turns: 0,
            after_read: false,
            attached: Numbers::new(alloc),
            in_phase: false,
            clients: Numbers::new(alloc),
            flows: Numbers::new(alloc),
        }
    }

    pub fn declare(&mut self, decl: Decl) -> Result<(), NoMemory>
        requires { IsNew self.old.decls decl }
        ensures { OnOk result (self.new ≡ known_after self.old (items.Decl decl)) }
    {
        self.decls.push(decl)?;
        self.after_read = false;
        Ok(())
    }

    pub fn note(&mut self, command: &Command) -> Result<(), NoMemory>
        requires { Fits self.old (items.Command command.now) }
        ensures { OnOk result (self.new ≡ known_after self.old (items.Command command.now)) }
    {
        note_client(&mut self.clients, self.in_phase, command)?;
        note_flow(&mut self.flows, self.in_phase, command)?;
        note_attached(&mut self.attached, command)?;
        if let Command::Flow { turns, .. } = command {
            self.turns += *turns;
        }
        self.begun = true;
        self.after_read = matches!(command, Command::Read { .. });
        self.in_phase = phase_then(command, self.in_phase);
        Ok(())
    }
}

fn phase_then(command: &Command, was: bool) -> bool
    ensures { result ≡ phase_after command.now was }
{
    match command {
        Command::Phase => true,
        Command::End => false,
        _ => was,
    }
}

fn note_attached(attached: &mut Numbers, command: &Command) -> Result<(), NoMemory>
    ensures { OnOk result (attached.new ≡ attached_after command.now attached.old) }
{
    match command {
        Command::Attach { stream } => attached.add(*stream),
        Command::Detach { stream } => {
            attached.remove(*stream);
            Ok(())
        }
        _ => Ok(()),
    }
}

fn note_client(clients: &mut Numbers, during: bool, command: &Command) -> Result<(), NoMemory>
    ensures { OnOk result (clients.new ≡ clients_after command.now during clients.old) }
{
    match command {
        Command::Phase => {
            clients.clear();
            Ok(())
        }
        Command::Write { client, .. } => add_if(clients, during, *client),
        Command::Delete { client, .. } => add_if(clients, during, *client),
        Command::Read { client, .. } => add_if(clients, during, *client),
        _ => Ok(()),
    }
}

fn note_flow(flows: &mut Numbers, during: bool, command: &Command) -> Result<(), NoMemory>
    ensures { OnOk result (flows.new ≡ flows_after command.now during flows.old) }
{
    match command {
        Command::Phase => {
            flows.clear();
            Ok(())
        }
        Command::Flow { stream, .. } => add_if(flows, during, *stream),
        _ => Ok(()),
    }
}

fn add_if(numbers: &mut Numbers, during: bool, number: u32) -> Result<(), NoMemory>
    ensures { OnOk result (numbers.new ≡ if during then with_number numbers.old number else numbers.old) }
{
    if during {
        return numbers.add(number);
    }
    Ok(())
}
