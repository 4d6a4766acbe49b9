// How a command or a phase ends.

use pr_inval::Bytes;

/// A command or a phase went its way; a wire gave other bytes than those that were put for the message of this number
/// of the stream; or an event's time or clock would be past the greatest.
#[derive(Drop)]
pub enum Stop {
    Went,
    Lied {
        stream: u32,
        number: u64,
        sent: Bytes,
        got: Bytes,
    },
    Worn {
        at: u64,
    },
}
