//! A node: its journal, and the stores that are tied to it.
#![tactic(auto)]

mod ahead;
mod answering;
mod answers;
mod diary;
mod law;
mod looking;
mod node;
mod ranges;
mod rebuilding;
mod scan;
mod standing;
mod starting;
mod stores;
mod taking;
#[cfg(test)]
mod tests;
mod turning;
mod waiting_bodies;
mod writing;

pub use answers::{Answer, Done, Seen, Turned};
pub use law::lawful_journals_can_be_rebuilt;
pub use node::Node;
pub use pr_inval::{NodeFault, Step, Taken};
pub use scan::Scan;
pub use stores::Stores;
