// What a judge says of a line.

/// Whether the lines so far begin a transcript; and if they do not, what the line breaks: 1, a wrong head line; 2, no line
/// of a transcript; 3, the line of an event that may not come there; 4, a wrong last line, or none where it is to stand.
#[derive(Clone, Copy, Debug, PartialEq, Eq)]
pub enum Verdict {
    Good,
    Bad { why: u8 },
}
