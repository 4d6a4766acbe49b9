//! The top call: a script is read, run, and told as a transcript.
#![tactic(auto)]

mod asker;
mod asking;
mod beside;
mod checking;
mod fronts;
mod generating;
mod keeping;
mod law;
mod left;
mod nodes;
mod outliving;
mod pulling;
mod reading;
mod reopening;
mod resuming;
mod running;
mod serving;
mod silent;
mod size;
mod status;
mod stepping;
mod streams;
mod telling;
#[cfg(test)]
mod tests;
mod top;
mod writing;

pub use checking::{CheckError, MOST_BYTES, say};
pub use keeping::{KeptEnd, kept};
pub use law::runs_repeat;
pub use status::Status;
pub use telling::tell;
pub use top::{alone, practi};
pub use writing::write_all;
