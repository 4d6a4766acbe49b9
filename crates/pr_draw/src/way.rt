// How far lines go.

/// Whether a line reaches its end.
#[derive(Clone, Copy, PartialEq, Eq)]
pub enum Way {
    /// It does, a few rows below.
    Near,
    /// It does, many rows below: it is drawn lightly, since much stands between.
    Far,
    /// It does not, and has no head there.
    Lost,
}

impl Way {
    /// The class that the style sheet knows.
    pub fn class(self) -> &'static [u8] {
        match self {
            Way::Near => b"near",
            Way::Far => b"far",
            Way::Lost => b"lost",
        }
    }
}
