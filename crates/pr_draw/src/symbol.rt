// What stands on a lifeline.

/// A symbol, which is drawn around its place.
#[derive(Clone, Copy)]
pub enum Symbol {
    Node,
    Client,
    Attach,
    Idle,
    Write,
    Delete,
    /// A read that was answered.
    Read,
    /// What was not answered, or not yet.
    Pending,
    Accept,
    /// What did not come, or was refused.
    Cross,
    Move,
    Cut,
    Drop,
    Conflicts,
    State,
}

/// All of them.
pub const SYMBOLS: [Symbol; 15] = [
    Symbol::Node,
    Symbol::Client,
    Symbol::Attach,
    Symbol::Idle,
    Symbol::Write,
    Symbol::Delete,
    Symbol::Read,
    Symbol::Pending,
    Symbol::Accept,
    Symbol::Cross,
    Symbol::Move,
    Symbol::Cut,
    Symbol::Drop,
    Symbol::Conflicts,
    Symbol::State,
];

impl Symbol {
    /// The reference to its definition.
    pub fn href(self) -> &'static [u8] {
        match self {
            Symbol::Node => b"#node",
            Symbol::Client => b"#client",
            Symbol::Attach => b"#attach",
            Symbol::Idle => b"#idle",
            Symbol::Write => b"#write",
            Symbol::Delete => b"#delete",
            Symbol::Read => b"#read",
            Symbol::Pending => b"#pending",
            Symbol::Accept => b"#accept",
            Symbol::Cross => b"#cross",
            Symbol::Move => b"#move",
            Symbol::Cut => b"#cut",
            Symbol::Drop => b"#drop",
            Symbol::Conflicts => b"#conflicts",
            Symbol::State => b"#state",
        }
    }

    /// Its outline, as SVG's path data around the origin.
    pub fn outline(self) -> &'static [u8] {
        match self {
            Symbol::Node => b"M-9-3H9V3H-9z",
            Symbol::Client => b"M-5 5V-1L0-6L5-1V5z",
            Symbol::Attach => b"M-5 0H5M0-5V5",
            Symbol::Idle => b"M-3 0a3 3 0 1 0 6 0a3 3 0 1 0-6 0z",
            Symbol::Write => b"M-5 0a5 5 0 1 0 10 0a5 5 0 1 0-10 0z",
            Symbol::Delete => b"M-6 0a6 6 0 1 0 12 0a6 6 0 1 0-12 0zM-3.5-1.2H3.5V1.2H-3.5z",
            Symbol::Read => b"M-5 0a5 5 0 1 0 10 0a5 5 0 1 0-10 0z",
            Symbol::Pending => b"M0-6.5L6.5 5H-6.5z",
            Symbol::Accept => b"M-2.5 0a2.5 2.5 0 1 0 5 0a2.5 2.5 0 1 0-5 0z",
            Symbol::Cross => b"M-5-5L5 5M-5 5L5-5",
            Symbol::Move => b"M-4-6L6 0L-4 6z",
            Symbol::Cut => b"M-10-2H10M-10 2H10",
            Symbol::Drop => b"M-5-5H5V5H-5zM-5-5L5 5",
            Symbol::Conflicts =>
                b"M-8 0a5 5 0 1 0 10 0a5 5 0 1 0-10 0zM-2 0a5 5 0 1 0 10 0a5 5 0 1 0-10 0z",
            Symbol::State => b"M-6-5H6M-6 0H6M-6 5H6",
        }
    }
}
