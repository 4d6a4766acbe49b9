// What a judge of a text has found.

/// What the lines so far are.
#[derive(Clone, Copy)]
pub enum Finding {
    /// They begin a transcript.
    Good,
    /// This one is the first bad line, and this is what it breaks.
    Bad { line: u64, why: u8 },
    /// Memory ran out.
    Spent,
}
