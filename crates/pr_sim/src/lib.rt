//! The engine: all nodes and streams of a script in one thread, and the history of what they did.
#![tactic(auto)]

mod clients;
mod delivering;
mod downs;
mod engine;
mod flowing;
mod holding;
mod jobs;
mod making;
mod messages;
mod nodes;
mod settling;
mod slots;
mod stepping;
mod streams;
#[cfg(test)]
mod tests;

pub use engine::Engine;
pub use holding::running_engines_represent;
pub use jobs::good_phases_can_be_run;
pub use making::copied_sets;
pub use pr_flow::Stop;
pub use pr_text::met;
pub use stepping::good_commands_can_be_run;
