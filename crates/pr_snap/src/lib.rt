//! Checkpoints: what a gap list and a table of marks know, as one message, and that message taken into others.
#![tactic(auto)]

mod applying;
mod building;
mod known_names;
#[cfg(test)]
mod tests;

pub use applying::apply;
pub use building::build;
pub use known_names::next_known_in;
