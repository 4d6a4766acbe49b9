// Commands.

use crate::{Bytes, Want};
use pr_names::Name;

/// One command, which speaks of nodes, clients and streams by their numbers; docs/SCRIPT.md has the lines.
#[derive(Drop)]
pub enum Command {
    Attach {
        stream: u32,
    },
    Detach {
        stream: u32,
    },
    Send {
        stream: u32,
    },
    Checkpoint {
        stream: u32,
    },
    /// A message's number is from 1 to the greatest message number, 4611686018427387903.
    Deliver {
        stream: u32,
        number: u64,
    },
    /// At least one turn; a script has at most 1,000,000 of all its flows.
    Flow {
        stream: u32,
        turns: u64,
    },
    /// The body has at most 1,024 bytes.
    Write {
        client: u32,
        name: Name,
        body: Bytes,
    },
    Delete {
        client: u32,
        name: Name,
    },
    Read {
        client: u32,
        name: Name,
    },
    Move {
        client: u32,
        node: u32,
    },
    /// What the read on the line before is to answer.
    Expect {
        want: Want,
    },
    Cut {
        node: u32,
    },
    State {
        node: u32,
    },
    Drop {
        node: u32,
        name: Name,
    },
    Conflicts {
        node: u32,
        name: Name,
    },
    Settle,
    Phase,
    End,
}
