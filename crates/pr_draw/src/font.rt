// How words are written.

/// A kind of label.
#[derive(Clone, Copy)]
pub enum Font {
    /// The number of a line, which ends at its place.
    Number,
    /// A node's name, around its place.
    Name,
    /// What is said beside a symbol, from its place on.
    Words,
    /// The same, of what was not answered or did not come.
    Warning,
}

impl Font {
    /// The class that the style sheet knows.
    pub fn class(self) -> &'static [u8] {
        match self {
            Font::Number => b"number",
            Font::Name => b"name",
            Font::Words => b"words",
            Font::Warning => b"warning",
        }
    }
}
