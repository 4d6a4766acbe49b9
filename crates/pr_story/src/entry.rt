// An event with its time.

use crate::Event;

/// An event, its time (a Lamport clock of events, from 1), and the number of the caller that made it. A node's journal
/// is a list of entries, and a history the entries of all nodes.
#[derive(Drop)]
pub struct Entry {
    pub time: u64,
    pub caller: u32,
    pub event: Event,
}
