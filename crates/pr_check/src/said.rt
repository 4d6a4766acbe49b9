// What a line says was asked for.
ghost use Rattle.pr_check.specs.Said.{said_of, sending_of};
ghost use Rattle.pr_inval.specs.declared.write_rec.WriteRec.{WriteRec};
ghost use Rattle.pr_story.specs.declared.event.Event.TheVariants.{Wrote};
ghost use Rattle.pr_text.specs.declared.plain.line.Asked.TheVariants as asks;
ghost use Rattle.std.specs.Prelude.{◌≡◌, ◌≢◌, [], ℕ, List, cond};

use pr_inval::{Bytes, Kind, WriteRec};
use pr_story::{Cause, Event};
use pr_text::plain::Asked;

/// What is needed to make the event of a line again. Nodes, clients and streams stand by their numbers.
#[derive(Drop)]
pub enum Said {
    Asked(Asked),
    /// A flow of the stream was to end.
    End { stream: u32, cause: Cause },
    /// The client asked for a write or for a read, and was refused.
    Behind { client: u32 },
}

/// What the line of the event at the node says.
pub fn said_of(node: u32, event: Event) -> Said
    ensures { result ≡ said_of node event }
{
    match event {
        Event::Wrote {
            client,
            write,
            body,
            ..
        } => Said::Asked(writing_of(client, &write, body)),
        event => said_beside_writes(node, &event),
    }
}

fn writing_of(client: u32, write: &WriteRec, mut body: Bytes) -> Asked
    ensures { result ≡ asks.Write client write.now.name (cond write.now.gone [] body) write.now.gone }
{
    if write.gone {
        body.truncate(0);
    }
    Asked::Write(client, write.name, body, write.gone)
}

// The same of an event that is no write.
fn said_beside_writes(node: u32, event: &Event) -> Said
    requires { (client : ℕ) (write : WriteRec) (body : List ℕ) (after : List ℕ) → event.now ≢ Wrote client write body after }
    ensures { result ≡ said_of node event.now }
{
    match event {
        Event::Wrote { .. } => unreachable!(),
        Event::Attached { stream, .. } => Said::Asked(Asked::Attach(*stream)),
        Event::Sent { msg } => Said::Asked(sending_of(msg.stream, &msg.kind)),
        Event::Idle { stream } => Said::Asked(Asked::Send(*stream)),
        Event::Stale { stream, .. } => Said::Asked(Asked::Send(*stream)),
        Event::Accepted { msg, .. } => Said::Asked(Asked::Deliver(msg.stream, msg.number)),
        Event::Gapped { msg, .. } => Said::Asked(Asked::Deliver(msg.stream, msg.number)),
        Event::Missing { stream, number } => Said::Asked(Asked::Deliver(*stream, *number)),
        Event::Down { stream, cause } => Said::End {
            stream: *stream,
            cause: *cause,
        },
        Event::Answered { client, name, .. } => Said::Asked(Asked::Read(*client, *name)),
        Event::Behind { client, .. } => Said::Behind { client: *client },
        Event::Moved { client } => Said::Asked(Asked::Move(*client, node)),
        Event::Cut { .. } => Said::Asked(Asked::Cut(node)),
        Event::Dropped { name } => Said::Asked(Asked::Drop(node, *name)),
        Event::Conflicts { name, .. } => Said::Asked(Asked::Conflicts(node, *name)),
        Event::State { .. } => Said::Asked(Asked::State(node)),
    }
}

fn sending_of(stream: u32, kind: &Kind) -> Asked
    ensures { result ≡ sending_of stream kind.now }
{
    match kind {
        Kind::Checkpoint { .. } => Asked::Checkpoint(stream),
        _ => Asked::Send(stream),
    }
}
