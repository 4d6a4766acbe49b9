// What a client has seen, and what a stream has heard, by the entries of all nodes.
ghost use Rattle.pr_story.specs.Clients.{client_vector, seen_after};
ghost use Rattle.pr_story.specs.History.{NodeEntry, entries};
ghost use Rattle.pr_story.specs.Turns.{is_timed, stream_time};
ghost use Rattle.std.specs.Prelude.{◌≡◌, List, cond, max, reverse};

use crate::{Entry, Event};
use pr_vectors::Vector;

// What the client has seen after the event.
fn seen_after(event: &Event, client: u32, seen: &Vector) -> Vector
    ensures { result ≡ seen_after event.now client seen.now }
{
    match event {
        Event::Wrote {
            client: c,
            write,
            after,
            ..
        } => {
            if *c != client {
                return *seen;
            }
            let mut raised = after.get();
            raised.raise(&write.stamp);
            seen.join(&raised)
        }
        Event::Answered { client: c, at, .. } => {
            if *c == client {
                seen.join(&at.get())
            } else {
                *seen
            }
        }
        _ => *seen,
    }
}

/// What the client has seen after these entries of all nodes: the join of the vectors and stamps of its writes and of
/// the vectors of its answers. One pass.
pub fn client_vector(all: &[Entry], client: u32) -> Vector
    ensures { (h : List NodeEntry) → entries h ≡ reverse all.now → result ≡ client_vector h client }
{
    let mut seen = Vector::zero();
    for entry in all {
        seen = seen_after(&entry.event, client, &seen);
    }
    seen
}

// Whether the event counts for the times of the stream.
fn is_timed(event: &Event, stream: u32) -> bool
    ensures { result ≡ is_timed event.now stream }
{
    match event {
        Event::Attached { stream: s, .. } => *s == stream,
        Event::Sent { msg } => msg.stream == stream,
        Event::Idle { stream: s } => *s == stream,
        Event::Stale { stream: s, .. } => *s == stream,
        Event::Accepted { msg, .. } => msg.stream == stream,
        Event::Gapped { msg, .. } => msg.stream == stream,
        Event::Down { stream: s, .. } => *s == stream,
        _ => false,
    }
}

// The later of two times, if the second one counts.
fn later(time: u64, at: u64, counts: bool) -> u64
    ensures { result ≡ max time (cond counts at 0) }
{
    if counts { time.max(at) } else { time }
}

/// The greatest time of the stream's events among these entries of all nodes, but for missing messages. One pass.
pub fn stream_time(all: &[Entry], stream: u32) -> u64
    ensures { (h : List NodeEntry) → entries h ≡ reverse all.now → result ≡ stream_time h stream }
{
    let mut time = 0;
    for entry in all {
        let counts = is_timed(&entry.event, stream);
        time = later(time, entry.time, counts);
    }
    time
}
