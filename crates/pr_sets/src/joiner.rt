// A list of intervals that grows at its end, where the last may still grow.
ghost use Rattle.pr_sets.specs.Joining.{joined_onto, puts, last_grown};
ghost use Rattle.std.specs.Prelude.{◌≡◌, ◌<◌, [], length, OnOk, IfOk};

use crate::ends;
use pr_names::Interval;
use pr_stamps::{NoMemory, Seq};
use std::alloc::Global;
use std::marker::Model;

/// Intervals that come in the order of their first names, joined where they touch.
#[derive(Drop)]
pub struct Joiner {
    parts: Vec<Interval>,
}

impl Model for Joiner {
    ghost use Rattle.std.specs.Prelude.{List};
    ghost use Rattle.pr_names.specs.Span.{Span};

    ghost Value = { List Span };

    ghost view = { λ j. j.parts.items };
}

impl Joiner {
    pub fn new(alloc: Global) -> Joiner
        ensures { result ≡ [] }
    {
        Joiner {
            parts: Vec::new(alloc),
        }
    }

    /// None, with room for so many.
    pub fn with_room(alloc: Global, parts: usize) -> Result<Joiner, NoMemory>
        ensures { IfOk result (λ j. j ≡ []) }
    {
        let parts = Vec::with_capacity(alloc, parts)?;
        Ok(Joiner { parts })
    }

    /// Adds an interval: where it touches the last one, that one grows in place.
    pub fn put(&mut self, part: &Interval) -> Result<(), NoMemory>
        ensures { OnOk result (self.new ≡ joined_onto self.old part.now) }
    {
        if ends::is_behind(&self.parts, part) {
            self.parts.push(*part)?;
        } else {
            grow(&mut self.parts, part);
        }
        Ok(())
    }

    /// Adds interval after interval.
    pub fn put_all(&mut self, parts: &[Interval]) -> Result<(), NoMemory>
        ensures { OnOk result (self.new ≡ puts self.old parts.now) }
    {
        for part in parts {
            self.put(part)?;
        }
        Ok(())
    }

    pub fn finish(self) -> Seq<Interval>
        ensures { result ≡ self }
    {
        Seq::from_vec(self.parts)
    }
}

// The last interval grows up to where the part ends; one that ends no earlier stays as it is.
fn grow(parts: &mut [Interval], part: &Interval)
    requires { 0 < length parts.old }
    ensures { parts.new ≡ last_grown parts.old part.now }
{
    let at = parts.len() - 1;
    let last = &parts[at];
    if last.ends_before(part) {
        parts[at] = ends::up_to(last, part.hi());
    }
}
