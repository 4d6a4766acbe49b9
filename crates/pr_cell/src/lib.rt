//! A ticket lock round a value whose meaning is a list of entries.
//!
//! Each caller has a pass, which says what of the list it has seen. It changes the pass for a
//! turn, in which it holds the value, and adds entries of its number. What the callers know
//! then fits together: each entry stands in the list once, and those of one number stand in the
//! order in which that caller made them.
#![tactic(auto)]

mod cell;
mod pass;
mod refused;
mod steps;
mod storied;
#[cfg(test)]
mod tests;
mod tickets;
mod turn;
mod view;

pub use cell::Cell;
pub use pass::Pass;
pub use refused::Refused;
pub use storied::Storied;
pub use turn::Turn;
