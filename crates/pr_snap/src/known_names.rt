// The known names that a set has, or lacks, in order.
ghost use Rattle.pr_marks.specs.Table.{is_after, names_of};
ghost use Rattle.pr_names.specs.Name.{IsName};
ghost use Rattle.pr_names.specs.Order.{name_lt, NamesRise};
ghost use Rattle.pr_names.specs.Span.{Span};
ghost use Rattle.pr_sets.specs.Spans.{IsSet, has};
ghost use Rattle.pr_snap.specs.Walk.{IsEndOf, IsFirstPast, name_at};
ghost use Rattle.std.specs.Prelude.{◌≡◌, ◌≤◌, ◌<◌, ◌&&◌, ℕ, false, find, length, not, slice_index_or, true};

use pr_marks::Marks;
use pr_names::{Bound, Interval, Name};
use pr_sets::{NameSet, begun_by};

/// The least known name of the set that comes after this one, if there is one. Known names between two intervals of the
/// set are passed over at once: it looks at one name for each interval at most, in time logarithmic in the known names
/// and the intervals.
pub fn next_known_in(marks: &Marks, names: &NameSet, above: &Option<Name>) -> Option<Name>
    ensures value { result ≡ find (λ o. is_after above.now o && has names.now o) (names_of marks.now) }
    ensures order { NamesRise (names_of marks.now) }
{
    let mut last = *above;
    while let Some(name) = marks.next_known(&last) {
        if names.has(&name) {
            return Some(name);
        }
        let Some(first) = first_past(names, &name) else {
            return None;
        };
        if marks.newest(&first).is_some() {
            return Some(first);
        }
        last = Some(first);
    }
    None
}

// The least known name that the set lacks and that comes after this one, if there is one. Known names in one interval
// of the set are passed over at once, as by `next_known_in`.
pub fn next_known_outside(marks: &Marks, names: &NameSet, above: &Option<Name>) -> Option<Name>
    ensures value { result ≡ find (λ o. is_after above.now o && not (has names.now o)) (names_of marks.now) }
    ensures order { NamesRise (names_of marks.now) }
{
    let mut last = *above;
    while let Some(name) = marks.next_known(&last) {
        let Some(end) = end_of(names, &name) else {
            return Some(name);
        };
        let Some(end) = name_at(&end) else {
            return None;
        };
        if marks.newest(&end).is_some() {
            return Some(end);
        }
        last = Some(end);
    }
    None
}

// The least name of the set that comes after this one, which is none of its own: the start of an interval.
fn first_past(names: &NameSet, name: &Name) -> Option<Name>
    requires { has names.now name.now ≡ false }
    ensures { IsFirstPast names.now name.now result }
{
    let parts = names.parts();
    let begun = begun_by(parts, name);
    match parts.get(begun) {
        Some(part) => Some(part.lo()),
        None => None,
    }
}

// The end of the set's interval that has the name, if one has.
fn end_of(names: &NameSet, name: &Name) -> Option<Bound>
    ensures { IsEndOf names.now name.now result }
{
    let parts = names.parts();
    let begun = begun_by(parts, name);
    if begun == 0 {
        return None;
    }
    let end = parts[begun - 1].hi();
    if end.is_above(name) { Some(end) } else { None }
}

// The name that the bound is, if it is one.
fn name_at(bound: &Bound) -> Option<Name>
    ensures { result ≡ name_at bound.now }
{
    match bound {
        Bound::At(name) => Some(*name),
        Bound::End => None,
    }
}
