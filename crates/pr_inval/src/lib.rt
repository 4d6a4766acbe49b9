//! Messages between nodes, the merge of imprecise invalidations, and what a stream remembers.
#![tactic(auto)]

mod imprecise;
mod kind;
mod merging;
mod msg;
mod node_fault;
mod row;
mod sent_bodies;
mod sent_body;
mod session;
mod step;
mod taken;
mod target;
#[cfg(test)]
mod tests;
mod write_rec;

pub use imprecise::Imprecise;
pub use kind::Kind;
pub use merging::{
    merge, merged_cover_what_either_covers, merging_is_associative, merging_is_commutative,
};
pub use msg::Msg;
pub use node_fault::NodeFault;
pub use pr_stamps::Bytes;
pub use row::Row;
pub use session::Session;
pub use step::Step;
pub use taken::Taken;
pub use target::{TARGET_INTERVALS, target_for};
pub use write_rec::WriteRec;
