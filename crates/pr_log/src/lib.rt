//! The causal log of a node: which names are dark at which points, and the writes that are known.
#![tactic(auto)]

mod beginnings;
mod by_clock;
mod collector;
mod dark;
pub mod index;
mod latest;
mod log;
mod near;
mod segments;
mod steps;
mod tail;
#[cfg(test)]
mod tests;
mod waiting;
mod writes;

pub use index::Index;
pub use log::Log;
pub use near::Near;
pub use steps::Steps;
