// Expectations.
ghost use Rattle.pr_text.specs.Histories.{answers, is_met};
ghost use Rattle.std.specs.Prelude.{◌≡◌};

use pr_script::Want;
use pr_story::{Event, Reply};

/// Whether the event of a read is what was expected of it: an answer of this kind, for a value with these bytes, or that
/// its node trails its client.
pub fn met(want: &Want, event: &Event) -> bool
    ensures { result ≡ is_met want.now event.now }
{
    match (want, event) {
        (Want::Behind, Event::Behind { .. }) => true,
        (_, Event::Answered { reply, .. }) => answers(want, reply),
        _ => false,
    }
}

fn answers(want: &Want, reply: &Reply) -> bool
    ensures { result ≡ answers want.now reply.now }
{
    match (want, reply) {
        (Want::Value(text), Reply::Value { bytes, .. }) => bytes.as_slice() == text.as_slice(),
        (Want::Never, Reply::Never) => true,
        (Want::Imprecise, Reply::Imprecise { .. }) => true,
        (Want::Body, Reply::Body { .. }) => true,
        (Want::Gone, Reply::Gone { .. }) => true,
        _ => false,
    }
}
