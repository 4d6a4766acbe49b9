//! Sets of names, each kept as its one list of intervals.
#![tactic(auto)]

mod complement;
mod containment;
mod ends;
mod fault;
mod intersection;
mod joiner;
mod law;
mod lookup;
mod meeting;
mod name_set;
mod print;
mod pushing;
mod read;
#[cfg(test)]
mod tests;
mod union;

pub use fault::SetFault;
pub use law::{lists_have_the_names_of_their_parts, printed_sets_read_back, same_names_same_list};
pub use lookup::begun_by;
pub use name_set::NameSet;
