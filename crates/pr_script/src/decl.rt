// Declarations.

use pr_sets::NameSet;
use pr_stamps::{Bytes, Seq};

/// A declared node, client or stream. Each kind counts from 0 in the order of declaration; docs/SCRIPT.md has the lines.
#[derive(Drop)]
pub enum Decl {
    /// A node with at most 16 sets, none empty and no two with a name in common.
    Node {
        label: Bytes,
        sets: Seq<NameSet>,
    },
    /// A client that begins at this node.
    Client {
        label: Bytes,
        node: u32,
    },
    /// A stream of invalidations from one node to another, with bodies or without.
    Stream {
        label: Bytes,
        source: u32,
        dest: u32,
        sub: NameSet,
        bodies: bool,
    },
}
