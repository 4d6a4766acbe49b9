// Whether a flow may go down.
ghost use Rattle.pr_sim.specs.Flowing.{CanGoDown, goes_down, may_go_down};
ghost use Rattle.pr_sim.specs.Running.{HasAttached, IsKept};
ghost use Rattle.pr_sim.specs.Commands.{ForEachRun};
ghost use Rattle.pr_story.specs.Lawful.{is_after_gap, is_gap};
ghost use Rattle.pr_story.specs.Turns.{is_of_stream};
ghost use Rattle.std.specs.Prelude.{◌≡◌, ◌<◌, IsTrue, length, reverse};

use crate::engine::{Engine, node_at};
use crate::slots::route;
use pr_story::{Cause, Event, Journal};

impl Engine {
    /// Whether the stream is attached.
    pub fn is_attached(&self, stream: u32) -> bool
        requires kept { IsKept self.now }
        requires stream { stream < length self.now.sessions.items }
        ensures is { ForEachRun self.now (λ d attached h. result ≡ attached stream) }
        ensures on { IsTrue result → HasAttached self.now stream }
    {
        match &self.sessions[stream as usize] {
            Some(session) => session.is_attached(),
            None => false,
        }
    }

    /// Whether the flow of a stream may go down for this cause: it is attached, and behind a gap where a gap is the cause.
    /// It looks at the entries that the destination made since the last one of the stream.
    pub fn can_go_down(&self, stream: u32, cause: Cause) -> bool
        requires kept { IsKept self.now }
        requires stream { stream < length self.now.sessions.items }
        ensures is { ForEachRun self.now (λ d attached h. result ≡ goes_down d attached h stream cause) }
        ensures can { IsTrue result → ForEachRun self.now (λ d attached h. CanGoDown d.plan h stream cause) }
    {
        let attached = self.is_attached(stream);
        let node = node_at(&self.nodes, route(&self.routes, stream).destination);
        let after = is_after_gap(node.journal(), stream);
        attached && may_go_down(cause, after)
    }
}

// Whether the cause may be told, behind a gap or not.
fn may_go_down(cause: Cause, after: bool) -> bool
    ensures { result ≡ may_go_down cause after }
{
    match cause {
        Cause::Gap => after,
        Cause::Failed | Cause::Ended => true,
    }
}

// Whether the last of the entries that is the stream's is a gap.
fn is_after_gap(journal: &Journal, stream: u32) -> bool
    ensures { result ≡ is_after_gap (reverse journal.now.items) stream }
{
    let mut left = journal.len();
    while left > 0 {
        left -= 1;
        let event = &journal.entry(left).event;
        if is_of_stream(event, stream) {
            return is_gap(event);
        }
    }
    false
}

fn is_gap(event: &Event) -> bool
    ensures { result ≡ is_gap event.now }
{
    matches!(event, Event::Gapped { .. })
}

fn is_of_stream(event: &Event, stream: u32) -> bool
    ensures { result ≡ is_of_stream event.now stream }
{
    match event {
        Event::Attached { stream: of, .. } => *of == stream,
        Event::Sent { msg } => msg.stream == stream,
        Event::Idle { stream: of } => *of == stream,
        Event::Stale { stream: of, .. } => *of == stream,
        Event::Accepted { msg, .. } => msg.stream == stream,
        Event::Gapped { msg, .. } => msg.stream == stream,
        Event::Missing { stream: of, .. } => *of == stream,
        Event::Down { stream: of, .. } => *of == stream,
        _ => false,
    }
}
