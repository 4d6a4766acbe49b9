// Stamps, marks, and whether a write is a delete.
ghost use Rattle.pr_wire.specs.Reading.{Gives, gone_at, is_between, is_prev, mark_at, prev_at, stamp_at, stamp_of};
ghost use Rattle.std.specs.Prelude.{◌≡◌, List};

use crate::fault::Fault;
use crate::format::Format;
use crate::reading::Cursor;
use pr_stamps::{Mark, Stamp};
use pr_vectors::{PackedVector, Vector};

/// The stamp of a clock and a node, where they are in range.
#[tactic(auto, unfolding(crate::specs::Reading::stamp_of))]
pub fn stamp_of(clock: u64, node: u8) -> Option<Stamp>
    ensures { result ≡ stamp_of clock node }
{
    Stamp::new(clock, u32::from(node))
}

fn is_prev(prev: &Option<Stamp>, stamp: &Stamp) -> bool
    ensures { result ≡ is_prev prev.now stamp.now }
{
    match prev {
        None => true,
        Some(prev) => prev.is_before(stamp),
    }
}

/// Whether the second vector covers the stamp, and the first does not.
#[tactic(auto, unfolding(crate::specs::Reading::is_between))]
pub fn is_between(from: &PackedVector, to: &Vector, stamp: &Stamp) -> bool
    ensures { result ≡ is_between from.now to.now stamp.now }
{
    let node = stamp.node();
    from.at(node) < stamp.clock() && stamp.clock() <= to.at(node)
}

impl<'a> Cursor<'a> {
    /// A stamp.
    #[tactic(auto, unfolding(crate::specs::Reading::stamp_at))]
    pub fn stamp(&mut self) -> Result<Stamp, Fault>
        ensures { Gives (λ x. (x, self.new.rest.now)) result (stamp_at self.old.rest.now) }
    {
        let clock = self.eight()?;
        let node = self.byte()?;
        match stamp_of(clock, node) {
            Some(stamp) => Ok(stamp),
            None => Err(Fault::Bad),
        }
    }

    /// A stamp, or none.
    #[tactic(auto, unfolding(crate::specs::Reading::prev_at))]
    pub fn prev(&mut self) -> Result<Option<Stamp>, Fault>
        ensures { Gives (λ x. (x, self.new.rest.now)) result (prev_at self.old.rest.now) }
    {
        match self.byte()? {
            0 => Ok(None),
            1 => {
                let stamp = self.stamp()?;
                Ok(Some(stamp))
            }
            _ => Err(Fault::Bad),
        }
    }

    /// A stamp with the one before it.
    #[tactic(auto, unfolding(crate::specs::Reading::mark_at))]
    pub fn mark(&mut self) -> Result<Mark, Fault>
        ensures { Gives (λ x. (x, self.new.rest.now)) result (mark_at self.old.rest.now) }
    {
        let stamp = self.stamp()?;
        let prev = self.prev()?;
        if is_prev(&prev, &stamp) {
            Ok(Mark { stamp, prev })
        } else {
            Err(Fault::Bad)
        }
    }

    /// Whether a write is a delete, which format 1 does not say.
    #[tactic(auto, unfolding(crate::specs::Reading::gone_at))]
    pub fn gone(&mut self, format: Format) -> Result<bool, Fault>
        ensures { Gives (λ x. (x, self.new.rest.now)) result (gone_at format self.old.rest.now) }
    {
        match format {
            Format::One => Ok(false),
            Format::Two => self.flag(),
        }
    }

    /// No or yes, as the byte 0 or 1.
    #[tactic(auto, unfolding(crate::specs::Reading::gone_at))]
    pub fn flag(&mut self) -> Result<bool, Fault>
        ensures { Gives (λ x. (x, self.new.rest.now)) result (gone_at Format.Two self.old.rest.now) }
    {
        match self.byte()? {
            0 => Ok(false),
            1 => Ok(true),
            _ => Err(Fault::Bad),
        }
    }
}
