//! The bodies that a node holds, by name and stamp.
#![tactic(auto)]

mod bodies;
mod row;
#[cfg(test)]
mod tests;

pub use bodies::Bodies;
