//! By name the newest known stamp and the marks that the floor does not cover, and the conflicts that marks show.
#![tactic(auto)]

mod conflicts;
mod in_order;
mod marked;
mod marks;
mod row;
#[cfg(test)]
mod tests;

pub use marks::Marks;
pub use pr_stamps::Newest;
