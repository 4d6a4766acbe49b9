// The two wire formats.

/// A wire format: format 2 is written, and both are read. Format 1 has no room for a delete.
#[derive(Clone, Copy, Debug, PartialEq, Eq)]
pub enum Format {
    One,
    Two,
}
