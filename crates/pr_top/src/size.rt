// How much of a script was read.
ghost use Rattle.pr_top.specs.Sizes.{IsSizeOf, IsTooLarge, line_ends};
ghost use Rattle.std.specs.Prelude.{◌≡◌, ◌++◌, ◌<◌, ◌≤◌, [], List, MatchOption, length, ℕ};

// The most bytes of a script.
const MOST_BYTES: usize = 4194304;

// The most lines of a script.
const MOST_LINES: usize = 100000;

/// How many bytes and line ends were read.
#[derive(Clone, Copy)]
pub struct Size {
    pub bytes: usize,
    pub ends: usize,
}

impl Size {
    /// The size of nothing.
    pub fn new() -> Size
        ensures { IsSizeOf result [] }
    {
        Size { bytes: 0, ends: 0 }
    }

    /// The size with a piece more, or None where that is too large.
    pub fn with(&self, piece: &[u8]) -> Option<Size>
        requires some { 0 < length piece.now }
        requires bytes { self.now.bytes ≤ 4194304 }
        requires ends { self.now.ends ≤ 4194304 }
        ensures exact { (before : List ℕ) → IsSizeOf self.now before → MatchOption result (IsTooLarge (before ++ piece.now)) (λ s. IsSizeOf s (before ++ piece.now)) }
        ensures more { MatchOption result (Unit {0}) (λ s. (self.now.bytes < s.bytes) × (s.bytes ≤ 4194304) × (s.ends ≤ 4194304)) }
    {
        if piece.len() > MOST_BYTES - self.bytes {
            return None;
        }
        let (front, last) = piece.split_at(piece.len() - 1);
        let ends = self.ends + line_ends(front);
        if ends >= MOST_LINES {
            return None;
        }
        Some(Size {
            bytes: self.bytes + piece.len(),
            ends: ends + line_ends(last),
        })
    }
}

fn line_ends(bytes: &[u8]) -> usize
    ensures exact { result ≡ line_ends bytes.now }
    ensures within { result ≤ length bytes.now }
{
    bytes.iter().filter(|b| **b == b'\n').count()
}
