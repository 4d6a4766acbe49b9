//! The points that a node was told of, for each of its sets of names.
#![tactic(auto)]

mod clocks;
mod gaps;
mod ranges;
mod row;
#[cfg(test)]
mod tests;

pub use gaps::Gaps;
