// Vectors, and what one has above another.
ghost use Rattle.pr_wire.specs.Reading.{Gives, end_at, entries_at, entry_at, rise_at, vector_at, vector_le};
ghost use Rattle.pr_vectors.specs.Vector.{clock_of};
ghost use Rattle.std.specs.Prelude.{◌≡◌, ◌&&◌, nat_le, nat_lt, List};

use crate::fault::Fault;
use crate::format::Format;
use crate::reading::Cursor;
use crate::reading::stamps::stamp_of;
use pr_stamps::Stamp;
use pr_vectors::{PackedVector, Vector};
use std::alloc::Global;

// Whether no clock of the first vector is above the other's.
pub fn is_le(vector: &Vector, other: &Vector) -> bool
    ensures { result ≡ vector_le vector.now other.now }
{
    vector.le(other)
}

// Whether the node is this one or a later one, and the clock above the vector's.
fn is_entry(next: u32, from: &Vector, stamp: &Stamp) -> bool
    ensures { result ≡ (nat_le next stamp.now.node && nat_lt (clock_of from.now stamp.now.node) stamp.now.clock) }
{
    next <= stamp.node() && from.at(stamp.node()) < stamp.clock()
}

impl<'a> Cursor<'a> {
    // The clock of a node from this one on, above the vector's.
    #[tactic(auto, unfolding(crate::specs::Reading::entry_at))]
    fn entry(&mut self, next: u32, from: &Vector) -> Result<Stamp, Fault>
        ensures { Gives (λ x. (x, self.new.rest.now)) result (entry_at next from.now self.old.rest.now) }
    {
        let node = self.byte()?;
        let clock = self.eight()?;
        match stamp_of(clock, node) {
            Some(stamp) if is_entry(next, from, &stamp) => Ok(stamp),
            _ => Err(Fault::Bad),
        }
    }

    // Raises the vector by so many entries. Their nodes rise, so each is above the vector as it was.
    fn entries(&mut self, count: u8, vector: &mut Vector) -> Result<(), Fault>
        ensures { Gives (λ _. (vector.new, self.new.rest.now)) result (entries_at count 0 vector.old vector.old self.old.rest.now) }
    {
        let mut next = 0;
        for _ in 0..count {
            let stamp = self.entry(next, vector)?;
            vector.raise(&stamp);
            next = stamp.node() + 1;
        }
        Ok(())
    }

    /// Raises the vector to one of which is read what it has above it.
    #[tactic(auto, unfolding(crate::specs::Reading::rise_at))]
    pub fn rise(&mut self, vector: &mut Vector) -> Result<(), Fault>
        ensures { Gives (λ _. (vector.new, self.new.rest.now)) result (rise_at vector.old self.old.rest.now) }
    {
        let count = self.byte()?;
        self.entries(count, vector)
    }

    /// A vector.
    #[tactic(auto, unfolding(crate::specs::Reading::vector_at))]
    pub fn vector(&mut self) -> Result<Vector, Fault>
        ensures { Gives (λ x. (x, self.new.rest.now)) result (vector_at self.old.rest.now) }
    {
        let mut vector = Vector::zero();
        self.rise(&mut vector)?;
        Ok(vector)
    }

    /// A vector, packed. It takes memory for its clocks.
    #[tactic(auto, unfolding(crate::specs::Reading::vector_at))]
    pub fn packed_vector(&mut self, alloc: Global) -> Result<PackedVector, Fault>
        ensures { Gives (λ x. (x, self.new.rest.now)) result (vector_at self.old.rest.now) }
    {
        let mut vector = Vector::zero();
        self.rise(&mut vector)?;
        Ok(PackedVector::of(alloc, &vector)?)
    }

    /// Raises the vector at which points start to the one at which they end.
    #[tactic(auto, unfolding(crate::specs::Reading::end_at))]
    pub fn end(&mut self, format: Format, vector: &mut Vector) -> Result<(), Fault>
        ensures { Gives (λ _. (vector.new, self.new.rest.now)) result (end_at format vector.old self.old.rest.now) }
    {
        match format {
            Format::One => self.whole_end(vector),
            Format::Two => self.rise(vector),
        }
    }

    // The end as a whole vector.
    #[tactic(auto, unfolding(crate::specs::Reading::end_at))]
    fn whole_end(&mut self, vector: &mut Vector) -> Result<(), Fault>
        ensures { Gives (λ _. (vector.new, self.new.rest.now)) result (end_at Format.One vector.old self.old.rest.now) }
    {
        let to = self.vector()?;
        if !is_le(vector, &to) {
            return Err(Fault::Bad);
        }
        *vector = to;
        Ok(())
    }
}
