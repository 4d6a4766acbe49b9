//! The merged order of the entries that several nodes made beside each other: by time, then node.
#![tactic(auto)]

mod held;
mod law;
mod merging;
#[cfg(test)]
mod tests;

pub use held::{Held, entry_at};
pub use law::{
    jobs_by_time_are_a_phase, merged_entries_stand_by_time, no_place_stands_twice,
    one_merged_order, order_by_time_keeps_nodes_and_jobs,
};
pub use merging::merge;
