//! A stream over bytes: what asks for it, what answers an ask, and what takes the answers in.
#![tactic(auto)]

mod answering;
mod ask;
mod asking;
mod coming;
mod framing;
mod law;
mod naming;
mod pulling;
mod serve_fault;
mod serving;
mod stop;
#[cfg(test)]
mod tests;
mod window;
mod writing;

pub use ask::{Ask, MOST_TURNS};
pub use law::{
    asks_have_one_spelling, honest_messages_stay_closed, new_entries_come_last,
    no_ask_begins_another, pulled_messages_keep_valid,
};
pub use pulling::{pull, pull_rest};
pub use serve_fault::ServeFault;
pub use serving::{serve, serve_rest};
pub use window::MOST_BYTES;
