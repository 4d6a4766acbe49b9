// Whether two sets share a name.
ghost use Rattle.pr_sets.specs.Spans.{IsSet, Meet, has};
ghost use Rattle.std.specs.Prelude.{◌↔◌, IsTrue};

use pr_names::Interval;

/// The interval that ends first is done with at each turn.
pub fn meets(a: &[Interval], b: &[Interval]) -> bool
    requires a { IsSet a.now }
    requires b { IsSet b.now }
    ensures { IsTrue result ↔ Meet (has a.now) (has b.now) }
{
    let mut i = 0;
    let mut j = 0;
    while i < a.len() && j < b.len() {
        let left = &a[i];
        let right = &b[j];
        if left.meets(right) {
            return true;
        }
        if right.ends_before(left) {
            j += 1;
        } else {
            i += 1;
        }
    }
    false
}
