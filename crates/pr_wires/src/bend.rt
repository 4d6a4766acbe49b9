// What goes wrong with a connection.
ghost use Rattle.pr_wires.specs.Bends.{ends_by, fails, flips, nth_of, refuses, repeats};
ghost use Rattle.std.specs.Prelude.{◌≡◌, ◌≤◌};

/// What goes wrong with the connection of this number, from 1. Calls of a wire, puts and takes together, count from 1,
/// and the bytes put into it from 0. These counts stand still at 2^64 - 1, and a byte of that number is not repeated.
#[derive(Clone, Copy, Debug, PartialEq, Eq)]
pub enum Bend {
    /// It is refused.
    NoConnect { nth: u64 },
    /// Its wire's call of this number fails.
    Fail { nth: u64, call: u64 },
    /// Its wire ends once so many bytes were taken.
    End { nth: u64, after: u64 },
    /// Its wire gives this byte with the lowest bit changed.
    Flip { nth: u64, at: u64 },
    /// Its wire gives this byte twice, and so each later byte one place later.
    Again { nth: u64, at: u64 },
}

/// A bend of no connection.
impl Default for Bend {
    ghost use Rattle.std.specs.Prelude.{◌≡◌};
    ghost use Rattle.pr_wires.specs.declared.bend.Bend.TheVariants.{NoConnect};

    ghost is_default = { λ b. b ≡ NoConnect 0 };

    fn default() -> Bend {
        Bend::NoConnect { nth: 0 }
    }
}

impl Bend {
    /// The number of the connection.
    pub fn nth(&self) -> u64
        ensures { result ≡ nth_of self.now }
    {
        match *self {
            Bend::NoConnect { nth } => nth,
            Bend::Fail { nth, .. } => nth,
            Bend::End { nth, .. } => nth,
            Bend::Flip { nth, .. } => nth,
            Bend::Again { nth, .. } => nth,
        }
    }

    // Whether the connection is refused.
    pub(crate) fn refuses(&self) -> bool
        ensures { result ≡ refuses self.now }
    {
        matches!(*self, Bend::NoConnect { .. })
    }

    // Whether the wire's call of this number fails.
    pub(crate) fn fails(&self, number: u64) -> bool
        ensures { result ≡ fails number self.now }
    {
        match *self {
            Bend::Fail { call, .. } => call == number,
            _ => false,
        }
    }

    // How many of so many bytes come before the wire ends, after so many were taken.
    pub(crate) fn left(&self, taken: u64, len: usize) -> usize
        ensures value { result ≡ ends_by taken len self.now }
        ensures within { result ≤ len }
    {
        match *self {
            Bend::End { after, .. } => len.min(after.saturating_sub(taken) as usize),
            _ => len,
        }
    }

    // Whether the byte of this number is changed.
    pub(crate) fn flips(&self, number: u64) -> bool
        ensures { result ≡ flips number self.now }
    {
        match *self {
            Bend::Flip { at, .. } => at == number,
            _ => false,
        }
    }

    // Whether the byte of this number is given twice.
    pub(crate) fn repeats(&self, number: u64) -> bool
        ensures { result ≡ repeats number self.now }
    {
        match *self {
            Bend::Again { at, .. } => at == number && number < u64::MAX,
            _ => false,
        }
    }
}
