//! The lines of a transcript: the declarations, and a line for each event.
#![tactic(auto)]

mod answer;
mod client;
mod clock_texts;
mod ending;
mod event;
mod expectation;
mod field;
mod head;
mod job;
mod label;
mod law;
mod message;
mod node;
mod packed;
mod piece;
mod pieces;
pub mod plain;
mod rows;
mod stamp;
mod stock;
mod stream;
#[cfg(test)]
mod tests;
mod vector;
mod vector_text;

pub use clock_texts::ClockTexts;
pub use ending::{bad, error, lied, ok, unmet};
pub use event::{line, next_line};
pub use expectation::met;
pub use head::heads;
pub use job::{count_lines, is_owned_by, turns_of};
pub use label::push_about;
pub use law::{lines_tell_the_history, phases_have_apart_jobs, runs_are_histories, runs_go_on};
pub use stamp::push_number;
pub use vector::push_vector;
