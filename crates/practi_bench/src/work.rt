// The kinds of call.

/// What is done again and again.
#[derive(Clone, Copy)]
pub enum Work {
    Rounds(Round),
    Calls(Call),
    Streams(StreamCall),
}

/// A round of two nodes.
#[derive(Clone, Copy)]
pub enum Round {
    /// A write, a turn, an accept and a read.
    Pair,
    /// The same, over bytes.
    Coded,
    /// A write, one of ten in the stream's subscription.
    Filtered,
    /// A write to a stream that sends bodies.
    Bodies,
}

/// A call of a node that knows names.
#[derive(Clone, Copy)]
pub enum Call {
    Write,
    /// Of a precise invalidation.
    Accept,
    Read,
    /// With a write before it.
    Cut,
    /// An accept of an imprecise invalidation, at a node to which the names are dark.
    Intervals,
}

/// A call of such a node for a stream.
#[derive(Clone, Copy)]
pub enum StreamCall {
    /// Each sends a write, as long as one waits.
    Turn,
    Idle,
    Attach,
    /// Of one name.
    Checkpoint,
}

impl Work {
    pub fn of(word: &str) -> Option<Work> {
        match word.as_bytes() {
            b"pair" => Some(Work::Rounds(Round::Pair)),
            b"coded" => Some(Work::Rounds(Round::Coded)),
            b"filtered" => Some(Work::Rounds(Round::Filtered)),
            b"bodies" => Some(Work::Rounds(Round::Bodies)),
            b"write" => Some(Work::Calls(Call::Write)),
            b"accept" => Some(Work::Calls(Call::Accept)),
            b"read" => Some(Work::Calls(Call::Read)),
            b"cut" => Some(Work::Calls(Call::Cut)),
            b"intervals" => Some(Work::Calls(Call::Intervals)),
            b"turn" => Some(Work::Streams(StreamCall::Turn)),
            b"idle" => Some(Work::Streams(StreamCall::Idle)),
            b"attach" => Some(Work::Streams(StreamCall::Attach)),
            b"checkpoint" => Some(Work::Streams(StreamCall::Checkpoint)),
            _ => None,
        }
    }
}
