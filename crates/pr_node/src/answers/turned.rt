// What a turn whose message is left in the journal answers.

/// A turn of a stream at its source, as by `Step`, whose message stands in the node's newest entry.
#[derive(Clone, Copy, Debug, PartialEq, Eq)]
pub enum Turned {
    Sent,
    Idle,
    Stale,
}
