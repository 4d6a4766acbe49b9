// Targets, marks and rows.
ghost use Rattle.pr_wire.specs.Reading.{Gives, is_known, items_at, known_mark_at, last_before, list_at, mark_before, row_at, row_before, span_at, target_at};
ghost use Rattle.pr_sets.specs.Spans.{has, is_behind};
ghost use Rattle.std.specs.Prelude.{◌≡◌, [], List};

use crate::fault::Fault;
use crate::format::Format;
use crate::reading::Cursor;
use crate::reading::stamps::is_between;
use pr_inval::Row;
use pr_names::Name;
use pr_sets::NameSet;
use pr_stamps::{Mark, Seq, Stamp};
use pr_vectors::{PackedVector, Vector};
use std::alloc::Global;

/// What bounds the marks of a checkpoint: those up to its end that its floor does not cover, of names outside its
/// target.
#[derive(Clone, Copy)]
pub struct Bounds<'a> {
    pub format: Format,
    pub to: &'a Vector,
    pub target: &'a NameSet,
    pub floor: &'a PackedVector,
}

// Whether a checkpoint can tell this newest stamp of the name.
fn is_known(bounds: &Bounds, name: &Name, newest: &Stamp) -> bool
    ensures { result ≡ is_known bounds.now.to.now bounds.now.target.now name.now newest.now }
{
    !bounds.target.has(name) && newest.clock() <= bounds.to.at(newest.node())
}

// Whether the mark may stand behind these.
fn can_follow(marks: &Seq<Mark>, mark: &Mark) -> bool
    ensures { result ≡ last_before mark_before marks.now mark.now }
{
    let marks = marks.as_slice();
    if marks.is_empty() {
        return true;
    }
    marks[marks.len() - 1].stamp.is_before(&mark.stamp)
}

// Whether the row may stand behind these.
fn can_follow_row(rows: &Seq<Row>, row: &Row) -> bool
    ensures { result ≡ last_before row_before rows.now row.now }
{
    let rows = rows.as_slice();
    if rows.is_empty() {
        return true;
    }
    rows[rows.len() - 1].name.is_below(&row.name)
}

// For how many of these items room is taken before one is read: a short list, as nearly all are, takes no more than it
// holds, and one that says more than it has takes little.
fn room_for(count: u64) -> usize {
    count.min(16) as usize
}

impl<'a> Cursor<'a> {
    /// A set of names, as a target.
    #[tactic(auto, unfolding(crate::specs::Reading::list_at))]
    pub fn target(&mut self, alloc: Global) -> Result<NameSet, Fault>
        ensures { Gives (λ x. (x, self.new.rest.now)) result (target_at self.old.rest.now) }
    {
        let count = self.eight()?;
        self.spans(alloc, count)
    }

    fn spans(&mut self, alloc: Global, count: u64) -> Result<NameSet, Fault>
        ensures { Gives (λ x. (x, self.new.rest.now)) result (items_at span_at is_behind count [] self.old.rest.now) }
    {
        let mut set = NameSet::with_room(alloc, room_for(count))?;
        for _ in 0..count {
            let span = self.span()?;
            if !set.can_push(&span) {
                return Err(Fault::Bad);
            }
            set.push(span)?;
        }
        Ok(set)
    }

    // A mark of a name with this newest stamp.
    #[tactic(auto, unfolding(crate::specs::Reading::known_mark_at))]
    fn known_mark(&mut self, bounds: &Bounds, newest: &Stamp) -> Result<Mark, Fault>
        ensures { Gives (λ x. (x, self.new.rest.now)) result (known_mark_at bounds.now.floor.now bounds.now.to.now newest.now self.old.rest.now) }
    {
        let mark = self.mark()?;
        if is_between(bounds.floor, bounds.to, &mark.stamp) && !newest.is_before(&mark.stamp) {
            Ok(mark)
        } else {
            Err(Fault::Bad)
        }
    }

    #[tactic(auto, unfolding(crate::specs::Reading::list_at))]
    fn marks(&mut self, alloc: Global, bounds: &Bounds, newest: &Stamp) -> Result<Seq<Mark>, Fault>
        ensures { Gives (λ x. (x, self.new.rest.now)) result (list_at (known_mark_at bounds.now.floor.now bounds.now.to.now newest.now) (last_before mark_before) self.old.rest.now) }
    {
        let count = self.eight()?;
        self.some_marks(alloc, bounds, newest, count)
    }

    fn some_marks(
        &mut self,
        alloc: Global,
        bounds: &Bounds,
        newest: &Stamp,
        count: u64,
    ) -> Result<Seq<Mark>, Fault>
        ensures { Gives (λ x. (x, self.new.rest.now)) result (items_at (known_mark_at bounds.now.floor.now bounds.now.to.now newest.now) (last_before mark_before) count [] self.old.rest.now) }
    {
        let mut marks = Seq::with_room(alloc, room_for(count))?;
        for _ in 0..count {
            let Mark { stamp, prev } = self.known_mark(bounds, newest)?;
            let mark = Mark { stamp, prev };
            if !can_follow(&marks, &mark) {
                return Err(Fault::Bad);
            }
            marks.push(mark)?;
        }
        Ok(marks)
    }

    #[tactic(auto, unfolding(crate::specs::Reading::row_at))]
    fn row(&mut self, alloc: Global, bounds: &Bounds) -> Result<Row, Fault>
        ensures { Gives (λ x. (x, self.new.rest.now)) result (row_at bounds.now.format bounds.now.floor.now bounds.now.to.now bounds.now.target.now self.old.rest.now) }
    {
        let name = self.name()?;
        let newest = self.stamp()?;
        let gone = self.gone(bounds.format)?;
        if !is_known(bounds, &name, &newest) {
            return Err(Fault::Bad);
        }
        let marks = self.marks(alloc, bounds, &newest)?;
        Ok(Row {
            name,
            newest,
            gone,
            marks,
        })
    }

    // The rows of a checkpoint with these bounds.
    #[tactic(auto, unfolding(crate::specs::Reading::list_at))]
    pub(crate) fn rows(&mut self, alloc: Global, bounds: &Bounds) -> Result<Seq<Row>, Fault>
        ensures { Gives (λ x. (x, self.new.rest.now)) result (list_at (row_at bounds.now.format bounds.now.floor.now bounds.now.to.now bounds.now.target.now) (last_before row_before) self.old.rest.now) }
    {
        let count = self.eight()?;
        self.some_rows(alloc, bounds, count)
    }

    fn some_rows(&mut self, alloc: Global, bounds: &Bounds, count: u64) -> Result<Seq<Row>, Fault>
        ensures { Gives (λ x. (x, self.new.rest.now)) result (items_at (row_at bounds.now.format bounds.now.floor.now bounds.now.to.now bounds.now.target.now) (last_before row_before) count [] self.old.rest.now) }
    {
        let mut rows = Seq::with_room(alloc, room_for(count))?;
        for _ in 0..count {
            let row = self.row(alloc, bounds)?;
            if !can_follow_row(&rows, &row) {
                return Err(Fault::Bad);
            }
            rows.push(row)?;
        }
        Ok(rows)
    }
}
