// The line of an event.
ghost use Rattle.pr_text.specs.Lines.{line_text, sentence};
ghost use Rattle.pr_text.specs.Texts.{AreOfNodes};
ghost use Rattle.std.specs.Prelude.{◌≡◌, ◌++◌, [], OnErr, OnOk};

use crate::ClockTexts;
use crate::client::{push_answered, push_behind, push_moved, push_wrote};
use crate::node::{push_conflicts, push_cut, push_dropped, push_state};
use crate::stock::Stock;
use crate::stream::{
    push_accepted, push_attached, push_down, push_gapped, push_idle, push_missing, push_sent,
    push_stale,
};
use pr_script::{Bytes, Decls};
use pr_stamps::NoMemory;
use pr_story::Event;

/// Makes the line of an event at the node in place of what `line` had; docs/TRANSCRIPT.md has the lines. It takes time
/// linear in the line and in what `line` had, and for each vector in it linear in the nodes, and memory only where the
/// line needs more room than the list has. A refusal leaves it empty.
pub fn line(decls: &Decls, node: u32, event: &Event, line: &mut Bytes) -> Result<(), NoMemory>
    ensures ok { OnOk result (line.new ≡ line_text decls.now.list node event.now) }
    ensures err { OnErr result (line.new ≡ []) }
{
    match make_line(&Stock::of(decls), node, event, line) {
        Ok(()) => Ok(()),
        Err(_) => Err(refused(line)),
    }
}

/// Makes the line that `line` makes, with texts of clocks that are kept for the lines to come. It takes memory for them
/// too, mostly only where one has more digits than before.
pub fn next_line(
    decls: &Decls,
    clocks: &mut ClockTexts,
    node: u32,
    event: &Event,
    line: &mut Bytes,
) -> Result<(), NoMemory>
    requires { AreOfNodes decls.now.list clocks.old }
    ensures ok { OnOk result (line.new ≡ line_text decls.now.list node event.now) }
    ensures err { OnErr result (line.new ≡ []) }
    ensures nodes { AreOfNodes decls.now.list clocks.new }
{
    match make_next(decls, clocks, node, event, line) {
        Ok(()) => Ok(()),
        Err(_) => Err(refused(line)),
    }
}

// Leaves nothing of a line.
fn refused(line: &mut Bytes) -> NoMemory
    ensures { line.new ≡ [] }
{
    line.truncate(0);
    NoMemory
}

// Makes the event's line in place of what `text` had. A refusal leaves that, or a part of the line.
fn make_next(
    decls: &Decls,
    clocks: &mut ClockTexts,
    node: u32,
    event: &Event,
    text: &mut Bytes,
) -> Result<(), NoMemory>
    requires { AreOfNodes decls.now.list clocks.old }
    ensures line { OnOk result (text.new ≡ line_text decls.now.list node event.now) }
    ensures nodes { AreOfNodes decls.now.list clocks.new }
{
    if !ClockTexts::is_for(decls) {
        return make_line(&Stock::of(decls), node, event, text);
    }
    clocks.begin(decls)?;
    clocks.expect(node, event)?;
    make_line(&Stock::with(decls, clocks), node, event, text)
}

// Makes the event's line in place of what `text` had. A refusal leaves a part of it.
fn make_line(stock: &Stock, node: u32, event: &Event, text: &mut Bytes) -> Result<(), NoMemory>
    ensures { OnOk result (text.new ≡ line_text stock.now.list node event.now) }
{
    text.truncate(0);
    push_event(stock, node, event, text)?;
    text.push(b'\n')
}

// Adds the event's first word and its fields.
fn push_event(stock: &Stock, node: u32, event: &Event, text: &mut Bytes) -> Result<(), NoMemory>
    ensures { OnOk result (text.new ≡ text.old ++ sentence stock.now.list node event.now) }
{
    match event {
        Event::Wrote {
            client,
            write,
            body,
            after,
        } => push_wrote(stock, *client, write, body.as_slice(), after, text),
        Event::Attached { stream, at } => push_attached(stock, *stream, at, text),
        Event::Sent { msg } => push_sent(stock, msg, text),
        Event::Idle { stream } => push_idle(stock.decls(), *stream, text),
        Event::Stale { stream, cut } => push_stale(stock, *stream, cut, text),
        Event::Accepted { msg, at } => push_accepted(stock, msg, at, text),
        Event::Gapped { msg, has } => push_gapped(stock, msg, has, text),
        Event::Missing { stream, number } => push_missing(stock.decls(), *stream, *number, text),
        Event::Down { stream, cause } => push_down(stock.decls(), *stream, cause, text),
        Event::Answered {
            client,
            name,
            reply,
            at,
        } => push_answered(stock, *client, name, reply, at, text),
        Event::Behind { client, needs, has } => push_behind(stock, *client, needs, has, text),
        Event::Moved { client } => push_moved(stock.decls(), node, *client, text),
        Event::Cut { at } => push_cut(stock, node, at, text),
        Event::Dropped { name } => push_dropped(stock.decls(), node, name, text),
        Event::Conflicts { name, found } => push_conflicts(stock.decls(), node, name, found, text),
        Event::State {
            at,
            cut,
            floor,
            precise,
        } => push_state(stock, node, at, cut, floor, precise.as_slice(), text),
    }
}
