// Intervals made of the ends of others.
ghost use Rattle.pr_names.specs.Bound.{is_under};
ghost use Rattle.pr_sets.specs.Ends.{gap, later_part};
ghost use Rattle.pr_sets.specs.Spans.{is_behind};
ghost use Rattle.std.specs.Option.{option_to_list};
ghost use Rattle.std.specs.Prelude.{◌≡◌, IsTrue};

use pr_names::{Bound, Interval};

/// The names from one bound up to another, if any.
pub fn gap(from: Bound, to: Bound) -> Option<Interval>
    ensures { option_to_list result ≡ gap from to }
{
    match from {
        Bound::At(lo) => Interval::new(lo, to),
        Bound::End => None,
    }
}

/// What an interval has from where another begins, if anything.
pub fn later_part(part: &Interval, other: &Interval) -> Option<Interval>
    ensures { option_to_list result ≡ later_part part.now other.now.lo }
{
    if !part.reaches(other) {
        return None;
    }
    if part.begins_before(other) {
        Interval::new(other.lo(), part.hi())
    } else {
        Some(*part)
    }
}

/// The interval with another end.
pub fn up_to(part: &Interval, hi: Bound) -> Interval
    requires { IsTrue (is_under part.now.lo hi) }
    ensures { result ≡ record { lo = part.now.lo; hi = hi } }
{
    Interval::new(part.lo(), hi).unwrap()
}

/// Whether an interval can stand behind the last of these, with a name between, in constant time.
pub fn is_behind(parts: &[Interval], part: &Interval) -> bool
    ensures { result ≡ is_behind parts.now part.now }
{
    if parts.is_empty() {
        return true;
    }
    part.is_behind(&parts[parts.len() - 1])
}
