// What a feed answers.

use pr_inval::Msg;

/// The message of the next frame; More, where the frame is not in yet; or Bad, where it is none of a message, with
/// the number of bytes before it, or `u64::MAX` where that number is greater.
#[derive(Drop)]
pub enum Next {
    Message(Msg),
    More,
    Bad { at: u64 },
}
