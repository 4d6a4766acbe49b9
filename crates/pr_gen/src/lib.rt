//! A workload from a seed: the script that `practi gen` runs, and the summary that it writes.
#![tactic(auto)]

mod counted;
mod draws;
mod law;
mod making;
mod naming;
mod steps;
mod summing;
#[cfg(test)]
mod tests;
mod topology;

pub use counted::Counted;
pub use law::{
    labels_tell_declarations_apart, printed_workloads_read_back, workloads_are_good,
    workloads_expect_nothing,
};
pub use making::script;
pub use summing::summary;
