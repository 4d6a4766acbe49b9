//! Jobs beside each other, and the gates at which they meet.
#![tactic(auto)]

mod cell_side;
mod client_calls;
mod client_job;
mod flow_job;
mod free_gate;
mod gate;
mod law;
mod looks;
mod meet_gate;
mod phase_node;
mod phasing;
mod planning;
mod room;
mod running;
mod sites;
mod starting;
mod story;
mod stream_calls;
mod task;
#[cfg(test)]
mod tests;
mod work;

pub use free_gate::FreeGate;
pub use gate::Gate;
pub use law::phases_are_assembled;
pub use meet_gate::MeetGate;
pub use phase_node::PhaseNode;
pub use phasing::phase;
pub use pr_flow::Stop;
pub use story::Story;
