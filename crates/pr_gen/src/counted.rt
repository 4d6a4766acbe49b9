// What the summary counts.
ghost use Rattle.pr_gen.specs.Summary as summary;
ghost use Rattle.pr_gen.specs.Summary.{AreOf};
ghost use Rattle.std.specs.Prelude.{◌≡◌, ◌≤◌};

use pr_inval::Kind;
use pr_story::{Event, Reply};

/// What a line of the summary counts: writes, reads and how they were answered, attaches, the messages that were sent by
/// their kind, what was accepted or lay behind a gap, turns that sent nothing, and flows that went down.
#[derive(Clone, Copy)]
pub enum Counted {
    Writes,
    Reads,
    Values,
    Nevers,
    Imprecises,
    Bodies,
    Attaches,
    Precise,
    Imprecise,
    Body,
    Checkpoint,
    Accepts,
    Gaps,
    Idles,
    Stales,
    Downs,
}

/// All of them, in the order of their lines.
pub const WORDS: [Counted; 16] = [
    Counted::Writes,
    Counted::Reads,
    Counted::Values,
    Counted::Nevers,
    Counted::Imprecises,
    Counted::Bodies,
    Counted::Attaches,
    Counted::Precise,
    Counted::Imprecise,
    Counted::Body,
    Counted::Checkpoint,
    Counted::Accepts,
    Counted::Gaps,
    Counted::Idles,
    Counted::Stales,
    Counted::Downs,
];

/// The places in `WORDS` of the words that may count the event: the first, and the one behind the last. It takes
/// constant time.
pub fn span(event: &Event) -> (usize, usize)
    ensures words { AreOf event.now result }
    ensures most { result.1 ≤ 16 }
{
    match event {
        Event::Wrote { .. } => (0, 1),
        Event::Answered { .. } => (1, 6),
        Event::Attached { .. } => (6, 7),
        Event::Sent { .. } => (7, 11),
        Event::Accepted { .. } => (11, 12),
        Event::Gapped { .. } => (12, 13),
        Event::Idle { .. } => (13, 14),
        Event::Stale { .. } => (14, 15),
        Event::Down { .. } => (15, 16),
        Event::Missing { .. }
        | Event::Behind { .. }
        | Event::Moved { .. }
        | Event::Cut { .. }
        | Event::Dropped { .. }
        | Event::Conflicts { .. }
        | Event::State { .. } => (0, 0),
    }
}

impl Counted {
    /// The word of its line.
    pub fn word(self) -> &'static [u8]
        ensures { result.now ≡ summary.word_of self }
    {
        match self {
            Counted::Writes => b"writes",
            Counted::Reads => b"reads",
            Counted::Values => b"values",
            Counted::Nevers => b"nevers",
            Counted::Imprecises => b"imprecises",
            Counted::Bodies => b"bodies",
            Counted::Attaches => b"attaches",
            Counted::Precise => b"precise",
            Counted::Imprecise => b"imprecise",
            Counted::Body => b"body",
            Counted::Checkpoint => b"checkpoint",
            Counted::Accepts => b"accepts",
            Counted::Gaps => b"gaps",
            Counted::Idles => b"idles",
            Counted::Stales => b"stales",
            Counted::Downs => b"downs",
        }
    }

    /// Whether the event is one of these.
    pub fn counts(self, event: &Event) -> bool
        ensures { result ≡ summary.is_counted self event.now }
    {
        match (self, event) {
            (Counted::Writes, Event::Wrote { .. }) => true,
            (Counted::Attaches, Event::Attached { .. }) => true,
            (Counted::Accepts, Event::Accepted { .. }) => true,
            (Counted::Gaps, Event::Gapped { .. }) => true,
            (Counted::Idles, Event::Idle { .. }) => true,
            (Counted::Stales, Event::Stale { .. }) => true,
            (Counted::Downs, Event::Down { .. }) => true,
            (word, Event::Answered { reply, .. }) => word.counts_answer(reply),
            (word, Event::Sent { msg }) => word.counts_sent(&msg.kind),
            _ => false,
        }
    }

    // Whether a read that was answered so is one of these.
    fn counts_answer(self, reply: &Reply) -> bool
        ensures { result ≡ summary.is_answered self reply.now }
    {
        match (self, reply) {
            (Counted::Reads, _) => true,
            (Counted::Values, Reply::Value { .. }) => true,
            (Counted::Nevers, Reply::Never) => true,
            (Counted::Imprecises, Reply::Imprecise { .. }) => true,
            (Counted::Bodies, Reply::Body { .. }) => true,
            _ => false,
        }
    }

    // Whether a message of this kind is one of these.
    fn counts_sent(self, kind: &Kind) -> bool
        ensures { result ≡ summary.is_sent self kind.now }
    {
        match (self, kind) {
            (Counted::Precise, Kind::Precise { .. }) => true,
            (Counted::Imprecise, Kind::Imprecise { .. }) => true,
            (Counted::Body, Kind::Body { .. }) => true,
            (Counted::Checkpoint, Kind::Checkpoint { .. }) => true,
            _ => false,
        }
    }
}
