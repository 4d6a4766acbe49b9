// Looking a name up among intervals.
ghost use Rattle.pr_names.specs.Name.{IsName};
ghost use Rattle.pr_names.specs.Order.{name_lt};
ghost use Rattle.pr_names.specs.Span.{Span};
ghost use Rattle.pr_sets.specs.Spans.{IsSet, has};
ghost use Rattle.std.specs.Prelude.{◌≡◌, ◌≤◌, ◌<◌, ℕ, length, not, true, false, slice_index_or};

use pr_names::{Interval, Name};

/// Only the last interval that begins with the name or before it can have the name.
pub fn has(parts: &[Interval], name: &Name) -> bool
    requires { IsSet parts.now }
    ensures { result ≡ has parts.now name.now }
{
    let _ = name.bytes();
    let begun = begun_by(parts, name);
    begun > 0 && parts[begun - 1].hi().is_above(name)
}

/// How many intervals of a set begin with the name or before it. It takes time logarithmic in their number.
pub fn begun_by(parts: &[Interval], name: &Name) -> usize
    requires { IsSet parts.now }
    ensures most { result ≤ length parts.now }
    ensures name { IsName name.now }
    ensures begun { (i : ℕ) (d : Span) → i < result → name_lt name.now (slice_index_or parts.now i d).lo ≡ false }
    ensures later { (i : ℕ) (d : Span) → result ≤ i → i < length parts.now → name_lt name.now (slice_index_or parts.now i d).lo ≡ true }
{
    let _ = name.bytes();
    parts.partition_point(
        |part: &Interval| -> bool
            ensures { result ≡ not (name_lt name.entry.now part.now.lo) }
        { !name.is_below(&part.lo()) },
    )
}
