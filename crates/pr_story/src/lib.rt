//! Histories: what nodes do, when each event is lawful, and what holds of every history that is valid.
#![tactic(auto)]

mod cause;
mod entry;
mod event;
mod found;
mod journal;
mod journaled;
mod law;
mod paged;
pub mod plain;
mod reply;
#[cfg(test)]
mod tests;

pub use cause::Cause;
pub use entry::Entry;
pub use event::Event;
pub use found::Found;
pub use journal::Journal;
pub use journaled::Journaled;
pub use law::{
    answers_are_alike, commands_determine_the_history, each_stream_has_one_turn,
    entries_have_places, equal_vectors_answer_alike, few_invalidations_are_sent,
    histories_name_what_is_declared, honest_messages_keep_closed, jobs_are_runs, jobs_merge,
    less_is_left_to_send, lines_determine_the_history, made_targets_are_targets,
    marked_phases_are_phases, marked_runs_are_begun, merged_messages_are_honest,
    nameless_sets_are_told, no_client_goes_back, nothing_begins_every_line, one_more_entry,
    phase_jobs_merge, reads_are_so, script_determines_the_history, sent_messages_are_useful,
    sent_messages_have_places, settles_settle, settles_tell, streams_stay_in_time,
    valid_histories_are_honest, valid_histories_are_short, who_stays_is_never_behind,
    whole_runs_are_begun, worked_histories_are_valid,
};
pub use reply::Reply;
