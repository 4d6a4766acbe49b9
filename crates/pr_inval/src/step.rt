// What a stream's source does in a turn.

use crate::Msg;
use pr_vectors::PackedVector;

/// A turn of a stream at its source: a message was sent, there is nothing to send, or the stream's position lies
/// behind the cut of the source's log, so that a checkpoint is wanted.
#[derive(Drop)]
pub enum Step {
    Sent(Msg),
    Idle,
    Stale { cut: PackedVector },
}
