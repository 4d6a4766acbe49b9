// What a stream does next.

use pr_inval::Kind;
use pr_vectors::Vector;

/// A turn of a stream at its source: its position lies behind the cut, there is nothing to send, or this is sent.
#[derive(Drop)]
pub enum Next {
    Stale(Vector),
    Idle,
    Send(Kind),
}
