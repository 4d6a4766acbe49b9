// Whether one set lies within another.
ghost use Rattle.pr_sets.specs.Spans.{IsSet, Within, has};
ghost use Rattle.std.specs.Prelude.{◌↔◌, IsTrue};

use pr_names::Interval;

/// Each interval of the one lies in an interval of the other.
pub fn within(a: &[Interval], b: &[Interval]) -> bool
    requires a { IsSet a.now }
    requires b { IsSet b.now }
    ensures { IsTrue result ↔ Within (has a.now) (has b.now) }
{
    let mut i = 0;
    let mut j = 0;
    while i < a.len() && j < b.len() {
        let left = &a[i];
        let right = &b[j];
        if right.ends_before(left) {
            j += 1;
        } else if left.begins_before(right) {
            return false;
        } else {
            i += 1;
        }
    }
    i == a.len()
}
