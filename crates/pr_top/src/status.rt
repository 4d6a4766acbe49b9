// How a call of the program ended.
ghost use Rattle.pr_top.specs.Answers.{number_of};
ghost use Rattle.std.specs.Prelude.{◌≡◌};

use pr_script::Bytes;

/// How the program ended. Each has an exit status, and each but `WriteFault` a last line (docs/TRANSCRIPT.md); `ask` and
/// `serve` write one for `Usage` alone.
#[derive(Drop)]
pub enum Status {
    /// All was done, and the whole transcript written; or a text is a transcript.
    Ok,
    /// The words are not accepted.
    Usage,
    /// The script's first bad line, counted from 1, and the least of the twelve rules that it breaks.
    BadScript {
        line: u64,
        why: u8,
    },
    /// The source failed.
    ReadFault,
    /// The sink failed.
    WriteFault,
    /// The script has more than 4,194,304 bytes, or goes on behind its 100,000th line; or the text to be judged, or what
    /// `serve` or `pull` reads behind the script, has more than 67,108,864 bytes.
    TooLarge,
    /// A wire gave other bytes than those that were put for this message of the stream.
    Lied {
        stream: u32,
        number: u64,
        sent: Bytes,
        got: Bytes,
    },
    /// There was no memory.
    NoMemory,
    /// All was done, and the expectation on this line is the first that was not met.
    Unmet {
        line: u64,
    },
    /// A time or a clock would be past the greatest, which needs as many events; for `pull` one message of the greatest
    /// time is enough.
    Worn {
        at: u64,
    },
    /// The text is no transcript: its first bad line, counted from 1, and what that breaks.
    No {
        line: u64,
        why: u8,
    },
    /// At this byte behind the script's end no ask stands, or no message that may be taken in.
    BadBytes {
        at: u64,
    },
    /// The script declares no node of this label.
    NoNode,
}

impl Status {
    /// The exit status of a process.
    pub fn number(&self) -> u8
        ensures { result ≡ number_of self.now }
    {
        match self {
            Status::Ok => 0,
            Status::Usage => 1,
            Status::BadScript { .. } => 2,
            Status::ReadFault => 3,
            Status::WriteFault => 4,
            Status::TooLarge => 5,
            Status::Lied { .. } => 6,
            Status::NoMemory => 7,
            Status::Unmet { .. } => 8,
            Status::Worn { .. } => 9,
            Status::No { .. } => 10,
            Status::BadBytes { .. } => 11,
            Status::NoNode => 12,
        }
    }
}
