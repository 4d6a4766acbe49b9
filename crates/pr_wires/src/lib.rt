//! Connections between nodes: wires, and what makes them.
#![tactic(auto)]

mod behind;
mod bend;
mod bent_wire;
mod bent_wires;
mod causes;
mod law;
mod loop_wire;
mod loop_wires;
mod tape_wire;
mod tape_wires;
#[cfg(test)]
mod tests;
mod true_wire;
mod true_wires;
mod wire;
mod wires;

pub use bend::Bend;
pub use bent_wire::BentWire;
pub use bent_wires::BentWires;
pub use law::{bends_of_bytes_stop_no_call, other_bends_change_no_byte};
pub use loop_wire::LoopWire;
pub use loop_wires::LoopWires;
pub use pr_ports::Failed;
pub use tape_wire::TapeWire;
pub use tape_wires::TapeWires;
pub use true_wire::TrueWire;
pub use true_wires::TrueWires;
pub use wire::{UNDER, Wire};
pub use wires::Wires;
