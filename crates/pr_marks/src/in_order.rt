// Marks in the order of their stamps.
ghost use Rattle.pr_marks.specs.Conflicting.{HasStamp};
ghost use Rattle.pr_marks.specs.Row.{Rises};
ghost use Rattle.pr_stamps.specs.Point.{Point, is_before};
ghost use Rattle.pr_stamps.specs.declared.mark.Mark.{Mark};
ghost use Rattle.std.specs.Prelude.{◌≡◌, ◌≤◌, ◌<◌, ℕ, false, length, slice_index_or, IsTrue, OnErr, OnOk, insert};

use pr_stamps::{Mark, NoMemory, Stamp};

// Puts the mark in its place, if no mark has its stamp.
pub fn put(marks: &mut Vec<Mark>, mark: &Mark) -> Result<(), NoMemory>
    requires { Rises marks.old.items }
    ensures rise { Rises marks.new.items }
    ensures stay { (s : Point) → HasStamp marks.old.items s → HasStamp marks.new.items s }
    ensures ok { OnOk result (HasStamp marks.new.items mark.now.stamp) }
{
    let at = place(marks, &mark.stamp);
    if stands_at(marks, at, &mark.stamp) {
        return Ok(());
    }
    marks.insert(at, *mark)?;
    Ok(())
}

// Puts the item at this place. The first one takes room for itself alone.
pub fn put_at<T: Copy + Drop>(list: &mut Vec<T>, at: usize, item: &T) -> Result<(), NoMemory>
    requires { at ≤ length list.old.items }
    ensures ok { OnOk result (list.new.items ≡ insert list.old.items at item.now) }
    ensures err { OnErr result (list.new.items ≡ list.old.items) }
{
    if list.is_empty() {
        list.reserve_exact(1)?;
    }
    list.insert(at, *item)?;
    Ok(())
}

// How many marks come before the stamp, in time logarithmic in the marks that do not.
pub fn place(marks: &[Mark], stamp: &Stamp) -> usize
    requires { Rises marks.now }
    ensures within { result ≤ length marks.now }
    ensures before { (k : ℕ) (d : Mark) → k < result → IsTrue (is_before (slice_index_or marks.now k d).stamp stamp.now) }
    ensures after { (k : ℕ) (d : Mark) → result ≤ k → k < length marks.now → is_before (slice_index_or marks.now k d).stamp stamp.now ≡ false }
{
    let start = start(marks, stamp);
    start + marks[start..].partition_point(|mark| mark.stamp.is_before(stamp))
}

// So many marks come before the stamp, and perhaps more: found from the end, where a new mark mostly goes, by steps
// that double.
fn start(marks: &[Mark], stamp: &Stamp) -> usize
    requires { Rises marks.now }
    ensures within { result ≤ length marks.now }
    ensures before { (k : ℕ) (d : Mark) → k < result → IsTrue (is_before (slice_index_or marks.now k d).stamp stamp.now) }
{
    let len = marks.len();
    let mut back: usize = 1;
    while back < len {
        let at = len - back;
        if marks[at].stamp.is_before(stamp) {
            return at + 1;
        }
        back = back.saturating_mul(2);
    }
    0
}

// Whether the mark at this place has the stamp.
pub fn stands_at(marks: &[Mark], at: usize, stamp: &Stamp) -> bool
    ensures here { IsTrue result → (d : Mark) → (at < length marks.now) × ((slice_index_or marks.now at d).stamp ≡ stamp.now) }
    ensures not_here { result ≡ false → (d : Mark) → at < length marks.now → ¬ ((slice_index_or marks.now at d).stamp ≡ stamp.now) }
{
    at < marks.len() && marks[at].stamp == *stamp
}
