// What lines are drawn.

/// A line from one place to another.
#[derive(Clone, Copy)]
pub enum Stroke {
    Lifeline,
    /// A declared stream.
    Stream,
    Precise,
    Imprecise,
    Checkpoint,
    Body,
    /// The end of the transcript.
    End,
}

impl Stroke {
    /// The class that the style sheet knows.
    pub fn class(self) -> &'static [u8] {
        match self {
            Stroke::Lifeline => b"lifeline",
            Stroke::Stream => b"stream",
            Stroke::Precise => b"precise",
            Stroke::Imprecise => b"imprecise",
            Stroke::Checkpoint => b"checkpoint",
            Stroke::Body => b"body",
            Stroke::End => b"end",
        }
    }
}
