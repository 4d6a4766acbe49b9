//! The stream worker: it takes the turns of a stream over a wire.
#![tactic(auto)]

mod carrying;
mod flow_end;
mod flowing;
mod passing;
mod side;
mod stop;
#[cfg(test)]
mod tests;

pub use carrying::{Carried, carry};
pub use flow_end::FlowEnd;
pub use flowing::flow;
pub use side::Side;
pub use stop::Stop;
