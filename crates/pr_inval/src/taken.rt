// What a stream's destination does with a message.

use pr_vectors::PackedVector;

/// A message was accepted, or its start is not at most the node's vector, so that a message before it is missing.
/// The time is that of the event.
#[derive(Drop)]
pub enum Taken {
    Accepted {
        time: u64,
    },
    Gap {
        needs: PackedVector,
        has: PackedVector,
        time: u64,
    },
}
