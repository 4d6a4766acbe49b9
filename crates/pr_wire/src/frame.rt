// The head of the frame at the front of bytes.
ghost use Rattle.pr_wire.specs.Frames.{said_length};
ghost use Rattle.pr_wire.specs.Fronts.{HeadIs};
ghost use Rattle.pr_wire.specs.Spelling.{format_byte};
ghost use Rattle.std.specs.Prelude.{◌≡◌, ◌≤◌, length, slice_index};

use crate::format::Format;

/// How many bytes stand before a frame's content: one for the format, and eight for the content's length.
pub const HEAD: usize = 9;

/// A head that is not in, one that no frame has, or the head of a frame that is in, with its number of bytes.
#[derive(Clone, Copy)]
pub enum Head {
    Partial,
    Refused,
    Whole { format: Format, len: usize },
}

/// The head at the front, where a content has at most so many bytes.
pub fn read_head(limit: u64, bytes: &[u8]) -> Head
    ensures { HeadIs limit bytes.now result }
{
    match bytes {
        [] => Head::Partial,
        [1, ..] => head_of(limit, Format::One, bytes),
        [2, ..] => head_of(limit, Format::Two, bytes),
        _ => Head::Refused,
    }
}

// The head of a frame of this format.
fn head_of(limit: u64, format: Format, bytes: &[u8]) -> Head
    requires some { 1 ≤ length bytes.now }
    requires format { slice_index bytes.now 0 ≡ format_byte format }
    ensures { HeadIs limit bytes.now result }
{
    if bytes.len() < HEAD {
        return Head::Partial;
    }
    let len = said_length(bytes);
    if len > limit {
        return Head::Refused;
    }
    if ((bytes.len() - HEAD) as u64) < len {
        return Head::Partial;
    }
    Head::Whole {
        format,
        len: HEAD + len as usize,
    }
}

// The length of the content.
#[tactic(auto, unfolding(crate::specs::Frames::said_length))]
fn said_length(bytes: &[u8]) -> u64
    requires { 9 ≤ length bytes.now }
    ensures { result ≡ said_length bytes.now }
{
    let (_, behind) = bytes.split_at(1);
    let (len, _) = behind.split_at(8);
    u64::from_be_bytes([
        len[0], len[1], len[2], len[3], len[4], len[5], len[6], len[7],
    ])
}
