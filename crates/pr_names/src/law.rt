// What holds of all names and intervals.
ghost use Rattle.pr_names.specs.Order.{name_lt};
ghost use Rattle.pr_names.specs.Span.{Span, IsSpan};
ghost use Rattle.pr_names.specs.Text.{interval_read, interval_text};
ghost use Rattle.std.specs.Cmp.Lexicographic.{slice_cmp};
ghost use Rattle.std.specs.Ordering.{is_lt, nat_cmp};
ghost use Rattle.std.specs.Prelude.{◌≡◌, ℕ, List, Ok};

/// Names come in the order of their bytes, which is that of `Ord`.
pub fn names_are_ordered_by_bytes()
    ensures { (x y : List ℕ) → name_lt x y ≡ is_lt (slice_cmp nat_cmp x y) }
{}

/// What an interval is printed as is read as that interval.
pub fn printed_intervals_read_back()
    ensures { (s : Span) → IsSpan s → interval_read (interval_text s) ≡ Ok s }
{}
