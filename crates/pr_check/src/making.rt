// The event that a line says is made again.
ghost use Rattle.pr_check.specs.Asking.{IsAnswered, IsAskable, IsMade, IsSayable, counts_in};
ghost use Rattle.pr_check.specs.declared.said.Said.TheVariants as saids;
ghost use Rattle.pr_sim.specs.Commands.{ForEachRun};
ghost use Rattle.pr_sim.specs.Running.{IsKept};
ghost use Rattle.pr_text.specs.declared.plain.line.Asked.TheVariants as asks;
ghost use Rattle.std.specs.Prelude.{◌≡◌, ◌<◌, [], IsTrue, length};

use crate::said::Said;
use pr_inval::NodeFault;
use pr_names::Name;
use pr_sim::Engine;
use pr_stamps::NoMemory;
use pr_story::Cause;
use pr_text::plain::Asked;

// The most bytes of a text.
const MOST: usize = 65536;

/// Makes what was said. False where nothing makes it: the stream was not attached, a gap did not come before its cause, or
/// the text is longer than any that is written. A fault is want of memory: a node is worn only behind more entries than
/// memory holds.
pub fn make(engine: &mut Engine, said: Said) -> Result<bool, NoMemory>
    requires kept { IsKept engine.old }
    requires sayable { IsSayable (counts_in engine.old) said }
    ensures { ForEachRun engine.old (λ d attached h. IsMade said d attached h engine.new result) }
{
    match said {
        Said::Asked(asked) => ask(engine, asked),
        Said::End { stream, cause } => end(engine, stream, cause),
        Said::Behind { client } => made(engine.read(client, &Name::least())),
    }
}

fn ask(engine: &mut Engine, asked: Asked) -> Result<bool, NoMemory>
    requires kept { IsKept engine.old }
    requires askable { IsAskable (counts_in engine.old) asked }
    ensures { ForEachRun engine.old (λ d attached h. IsMade (saids.Asked asked) d attached h engine.new result) }
{
    match asked {
        Asked::Write(client, name, body, gone) => {
            write(engine, client, &name, body.as_slice(), gone)
        }
        Asked::Read(client, name) => made(engine.read(client, &name)),
        Asked::Move(client, node) => made(engine.move_client(client, node)),
        Asked::Attach(stream) => made(engine.attach(stream)),
        Asked::Send(stream) => send(engine, stream),
        Asked::Checkpoint(stream) => checkpoint(engine, stream),
        Asked::Deliver(stream, number) => made(engine.deliver(stream, number)),
        Asked::Cut(node) => made(engine.cut(node)),
        Asked::Drop(node, name) => made(engine.drop_body(node, &name)),
        Asked::Conflicts(node, name) => made(engine.conflicts(node, &name)),
        Asked::State(node) => made(engine.state(node)),
    }
}

fn write(
    engine: &mut Engine,
    client: u32,
    name: &Name,
    body: &[u8],
    gone: bool,
) -> Result<bool, NoMemory>
    requires kept { IsKept engine.old }
    requires client { client < length engine.old.homes.items }
    requires gone { IsTrue gone → body.now ≡ [] }
    ensures { ForEachRun engine.old (λ d attached h. IsMade (saids.Asked (asks.Write client name.now body.now gone)) d attached h engine.new result) }
{
    if gone {
        return made(engine.delete(client, name));
    }
    if body.len() > MOST {
        return Ok(false);
    }
    made(engine.write(client, name, body))
}

fn send(engine: &mut Engine, stream: u32) -> Result<bool, NoMemory>
    requires kept { IsKept engine.old }
    requires stream { stream < length engine.old.sessions.items }
    ensures { ForEachRun engine.old (λ d attached h. IsMade (saids.Asked (asks.Send stream)) d attached h engine.new result) }
{
    if !engine.is_attached(stream) {
        return Ok(false);
    }
    made(engine.send(stream))
}

fn checkpoint(engine: &mut Engine, stream: u32) -> Result<bool, NoMemory>
    requires kept { IsKept engine.old }
    requires stream { stream < length engine.old.sessions.items }
    ensures { ForEachRun engine.old (λ d attached h. IsMade (saids.Asked (asks.Checkpoint stream)) d attached h engine.new result) }
{
    if !engine.is_attached(stream) {
        return Ok(false);
    }
    made(engine.checkpoint(stream))
}

// A flow of the stream ends.
fn end(engine: &mut Engine, stream: u32, cause: Cause) -> Result<bool, NoMemory>
    requires kept { IsKept engine.old }
    requires stream { stream < length engine.old.sessions.items }
    ensures { ForEachRun engine.old (λ d attached h. IsMade (saids.End stream cause) d attached h engine.new result) }
{
    if !engine.can_go_down(stream, cause) {
        return Ok(false);
    }
    made(engine.go_down(stream, cause))
}

// An entry was made, or it was not for want of memory.
fn made(answer: Result<(), NodeFault>) -> Result<bool, NoMemory>
    ensures { IsAnswered answer result }
{
    match answer {
        Ok(()) => Ok(true),
        Err(_) => Err(NoMemory),
    }
}
