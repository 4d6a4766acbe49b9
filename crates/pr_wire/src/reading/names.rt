// Names, bounds and intervals.
ghost use Rattle.pr_wire.specs.Reading.{Gives, bound_at, name_at, span_at};
ghost use Rattle.std.specs.Prelude.{List};

use crate::fault::Fault;
use crate::reading::Cursor;
use pr_names::{Bound, Interval, Name};

impl<'a> Cursor<'a> {
    /// A name.
    #[tactic(auto, unfolding(crate::specs::Reading::name_at))]
    pub fn name(&mut self) -> Result<Name, Fault>
        ensures { Gives (λ x. (x, self.new.rest.now)) result (name_at self.old.rest.now) }
    {
        let len = self.byte()?;
        let text = self.run(len as usize)?;
        match Name::read(text) {
            Ok(name) => Ok(name),
            Err(_) => Err(Fault::Bad),
        }
    }

    /// The bound of an interval.
    #[tactic(auto, unfolding(crate::specs::Reading::bound_at))]
    pub fn bound(&mut self) -> Result<Bound, Fault>
        ensures { Gives (λ x. (x, self.new.rest.now)) result (bound_at self.old.rest.now) }
    {
        match self.rest {
            [] => Err(Fault::Bad),
            [0, rest @ ..] => {
                self.rest = rest;
                Ok(Bound::End)
            }
            [_, ..] => {
                let name = self.name()?;
                Ok(Bound::At(name))
            }
        }
    }

    /// An interval.
    #[tactic(auto, unfolding(crate::specs::Reading::span_at))]
    pub fn span(&mut self) -> Result<Interval, Fault>
        ensures { Gives (λ x. (x, self.new.rest.now)) result (span_at self.old.rest.now) }
    {
        let lo = self.name()?;
        let hi = self.bound()?;
        match Interval::new(lo, hi) {
            Some(span) => Ok(span),
            None => Err(Fault::Bad),
        }
    }
}
