//! The words of the command line.
#![tactic(auto)]

mod command;
mod fault;
mod given;
mod job;
mod law;
mod mode;
mod modes;
mod reading;
#[cfg(test)]
mod tests;

pub use fault::WordsFault;
pub use job::Job;
pub use law::words_that_ask_are_calls;
pub use pr_stamps::Bytes;
pub use reading::read;
