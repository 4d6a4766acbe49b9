// The steps of a workload.
ghost use Rattle.pr_gen.specs.Workload as workload;
ghost use Rattle.std.specs.Prelude.{◌≡◌, IfOk};

use crate::draws::{below, word};
use crate::naming;
use pr_names::Name;
use pr_script::Command;
use pr_stamps::NoMemory;
use rand_pcg::Lcg64Xsh32;
use std::alloc::Global;

/// The next step that is drawn.
#[tactic(auto, unfolding(crate::specs::Workload::step))]
pub fn step(alloc: Global, words: &mut Lcg64Xsh32) -> Result<Command, NoMemory>
    ensures { IfOk result (λ c. (c, words.new) ≡ workload.step words.old) }
{
    let kind = below(words, 10);
    if kind < 5 {
        return write(alloc, words);
    }
    if kind < 7 {
        return Ok(read(words));
    }
    if kind < 9 {
        return Ok(flow(words));
    }
    Ok(attach(words))
}

#[tactic(auto, unfolding(crate::specs::Workload::write))]
fn write(alloc: Global, words: &mut Lcg64Xsh32) -> Result<Command, NoMemory>
    ensures { IfOk result (λ c. (c, words.new) ≡ workload.write words.old) }
{
    let client = below(words, 8);
    let name = name(words);
    let body = naming::text(alloc, word(words))?;
    Ok(Command::Write { client, name, body })
}

#[tactic(auto, unfolding(crate::specs::Workload::read))]
fn read(words: &mut Lcg64Xsh32) -> Command
    ensures { (result, words.new) ≡ workload.read words.old }
{
    let client = below(words, 8);
    let name = name(words);
    Command::Read { client, name }
}

#[tactic(auto, unfolding(crate::specs::Workload::flow))]
fn flow(words: &mut Lcg64Xsh32) -> Command
    ensures { (result, words.new) ≡ workload.flow words.old }
{
    let stream = below(words, 16);
    let turns = u64::from(below(words, 4)) + 1;
    Command::Flow { stream, turns }
}

#[tactic(auto, unfolding(crate::specs::Workload::attach))]
fn attach(words: &mut Lcg64Xsh32) -> Command
    ensures { (result, words.new) ≡ workload.attach words.old }
{
    let stream = below(words, 16);
    Command::Attach { stream }
}

#[tactic(auto, unfolding(crate::specs::Workload::name))]
fn name(words: &mut Lcg64Xsh32) -> Name
    ensures { (result, words.new) ≡ workload.name words.old }
{
    let letter = below(words, 8) as u8;
    let number = below(words, 50) as u8;
    naming::name(letter, number)
}
