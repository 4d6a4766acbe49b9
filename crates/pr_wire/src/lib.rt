//! The wire format of messages.
#![tactic(auto)]

mod appending;
mod decoding;
mod encoding;
mod fault;
mod feed;
mod format;
mod frame;
mod law;
mod next;
mod pieces;
mod reading;
#[cfg(test)]
mod tests;
mod through;
mod width;
mod writing;

pub use appending::{
    append_eight, append_four, append_name, append_set, append_stamp, append_vector,
};
pub use decoding::decode;
pub use encoding::encode;
pub use fault::Fault;
pub use feed::Feed;
pub use format::Format;
pub use law::{
    bad_bytes_stay_bad, feeds_give_what_was_pushed, fields_are_read_again,
    frames_spell_one_message, messages_are_never_bad, messages_have_one_spelling,
    no_frame_begins_another,
};
pub use next::Next;
pub use pieces::Pieces;
pub use reading::{Cursor, message};
pub use through::through_bytes;
