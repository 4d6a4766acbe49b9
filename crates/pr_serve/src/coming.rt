// What is still to come of an ask.
ghost use Rattle.pr_serve.specs.Extents.{clocks, coming_after, count, front, high, low, spans_left, tail};
ghost use Rattle.pr_serve.specs.declared.coming.Coming.TheVariants as comings;
ghost use Rattle.std.specs.Prelude.{◌≡◌, ◌↔◌, ◌+◌, ◌*◌, ◌%◌, ◌^◌, IsTrue};

/// What is still to come of an ask, by the counts and lengths that it gave: `left` bytes of a run, the length of a name
/// or a count, where so many intervals of the set are still to come.
#[derive(Clone, Copy)]
pub enum Coming {
    Front { left: u64 },
    Entries,
    Clocks { left: u64 },
    Count { left: u64, value: u64 },
    Low { spans: u64 },
    LowName { left: u64, spans: u64 },
    High { spans: u64 },
    HighName { left: u64, spans: u64 },
    Tail { left: u64 },
    Nothing,
}

impl Coming {
    /// What comes after one more byte.
    pub fn after(self, byte: u8) -> Coming
        ensures { result ≡ coming_after self byte }
    {
        match self {
            Coming::Front { left } => front(left.saturating_sub(1)),
            Coming::Entries => clocks(9 * u64::from(byte)),
            Coming::Clocks { left } => clocks(left.saturating_sub(1)),
            Coming::Count { left, value } => count(left.saturating_sub(1), value, byte),
            Coming::Low { spans } => low(u64::from(byte), spans),
            Coming::LowName { left, spans } => low(left.saturating_sub(1), spans),
            Coming::High { spans } => high(u64::from(byte), spans),
            Coming::HighName { left, spans } => high(left.saturating_sub(1), spans),
            Coming::Tail { left } => tail(left.saturating_sub(1)),
            Coming::Nothing => Coming::Nothing,
        }
    }

    pub fn is_nothing(self) -> bool
        ensures { IsTrue result ↔ (self ≡ comings.Nothing) }
    {
        matches!(self, Coming::Nothing)
    }
}

// The mark and the stream, then the number of entries.
fn front(left: u64) -> Coming
    ensures { result ≡ front left }
{
    match left {
        0 => Coming::Entries,
        _ => Coming::Front { left },
    }
}

// The entries, then the number of intervals.
fn clocks(left: u64) -> Coming
    ensures { result ≡ clocks left }
{
    match left {
        0 => Coming::Count { left: 8, value: 0 },
        _ => Coming::Clocks { left },
    }
}

// A byte of the number of intervals.
fn count(left: u64, value: u64, byte: u8) -> Coming
    ensures { result ≡ count left ((value * 256 + byte) % 2 ^ 64) }
{
    let value = value.wrapping_mul(256).wrapping_add(u64::from(byte));
    match left {
        0 => spans_left(value),
        _ => Coming::Count { left, value },
    }
}

// The intervals, then whether bodies are wanted and the turns.
fn spans_left(spans: u64) -> Coming
    ensures { result ≡ spans_left spans }
{
    match spans {
        0 => Coming::Tail { left: 9 },
        _ => Coming::Low { spans },
    }
}

// The name that an interval begins at, then its end.
fn low(left: u64, spans: u64) -> Coming
    ensures { result ≡ low left spans }
{
    match left {
        0 => Coming::High { spans },
        _ => Coming::LowName { left, spans },
    }
}

// The name that an interval ends at, then the next interval.
fn high(left: u64, spans: u64) -> Coming
    ensures { result ≡ high left spans }
{
    match left {
        0 => spans_left(spans.saturating_sub(1)),
        _ => Coming::HighName { left, spans },
    }
}

fn tail(left: u64) -> Coming
    ensures { result ≡ tail left }
{
    match left {
        0 => Coming::Nothing,
        _ => Coming::Tail { left },
    }
}
