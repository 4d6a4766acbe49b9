//! Names, their order, and the intervals between them.
#![tactic(auto)]

mod bound;
mod byte;
mod eights;
mod fault;
mod interval;
mod law;
mod name;
#[cfg(test)]
mod tests;
mod text;

pub use bound::Bound;
pub use fault::IntervalFault;
pub use interval::Interval;
pub use law::{names_are_ordered_by_bytes, printed_intervals_read_back};
pub use name::{Name, NameFault};
