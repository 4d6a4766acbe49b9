// What a client's read answers.

use pr_story::Reply;
use pr_vectors::Vector;

/// A read was answered, or the node's vector, `has`, lacks some of what its client has seen.
#[derive(Drop)]
pub enum Seen {
    Reply(Reply),
    Behind { has: Vector },
}
