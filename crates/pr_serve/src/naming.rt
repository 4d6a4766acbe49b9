// Which nodes and streams a message names.
ghost use Rattle.pr_serve.specs.Frames.{IsWanted};
ghost use Rattle.pr_story.specs.Counts.{HasKind, HasMark, HasPrev, HasRow, HasStamp, HasVector};
ghost use Rattle.std.specs.Prelude.{◌↔◌, IsTrue};

use pr_inval::{Kind, Msg, Row};
use pr_stamps::{Mark, NODES, Stamp};
use pr_vectors::PackedVector;

/// Whether the message names only nodes below `nodes`, and its stream is one of these, in time linear in the streams and
/// in what the message holds.
pub fn is_wanted(msg: &Msg, nodes: u32, streams: &[u32]) -> bool
    ensures { IsTrue result ↔ IsWanted nodes streams.now msg.now }
{
    streams.contains(&msg.stream) && names_kind(&msg.kind, nodes)
}

fn names_kind(kind: &Kind, nodes: u32) -> bool
    ensures { IsTrue result ↔ HasKind nodes kind.now }
{
    match kind {
        Kind::Precise { from, to, write } => {
            names_vector(from, nodes)
                && names_vector(to, nodes)
                && names_stamp(&write.stamp, nodes)
                && names_prev(&write.prev, nodes)
        }
        Kind::Imprecise { from, to, .. } => names_vector(from, nodes) && names_vector(to, nodes),
        Kind::Checkpoint {
            to,
            floor,
            rows,
            ..
        } => {
            names_vector(to, nodes)
                && names_vector(floor, nodes)
                && rows.as_slice().iter().all(|row| names_row(row, nodes))
        }
        Kind::Body { stamp, .. } => names_stamp(stamp, nodes),
    }
}

// Whether the vector has no clock of another node.
fn names_vector(vector: &PackedVector, nodes: u32) -> bool
    ensures { IsTrue result ↔ HasVector nodes vector.now }
{
    let _first = vector.at(0);
    for node in 0..NODES {
        if nodes <= node && vector.at(node) != 0 {
            return false;
        }
    }
    true
}

fn names_stamp(stamp: &Stamp, nodes: u32) -> bool
    ensures { IsTrue result ↔ HasStamp nodes stamp.now }
{
    stamp.node() < nodes
}

fn names_prev(prev: &Option<Stamp>, nodes: u32) -> bool
    ensures { IsTrue result ↔ HasPrev nodes prev.now }
{
    match prev {
        None => true,
        Some(stamp) => names_stamp(stamp, nodes),
    }
}

fn names_row(row: &Row, nodes: u32) -> bool
    ensures { IsTrue result ↔ HasRow nodes row.now }
{
    names_stamp(&row.newest, nodes)
        && row
            .marks
            .as_slice()
            .iter()
            .all(|mark| names_mark(mark, nodes))
}

fn names_mark(mark: &Mark, nodes: u32) -> bool
    ensures { IsTrue result ↔ HasMark nodes mark.now }
{
    names_stamp(&mark.stamp, nodes) && names_prev(&mark.prev, nodes)
}
