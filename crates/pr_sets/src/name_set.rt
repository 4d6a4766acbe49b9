// A set of names.
ghost use Rattle.pr_names.specs.Name.{IsName};
ghost use Rattle.pr_sets.specs.Spans.{IsComplement, IsIntersection, IsSet, IsUnion, Meet, Within, has, is_behind};
ghost use Rattle.pr_sets.specs.Text.{AddsFront, set_read, set_text};
ghost use Rattle.std.specs.Prelude.{◌≡◌, ℕ, List, [], ◌∷◌, ◌++◌, ◌⊎◌, length, IfErr, IfOk, OnOk, OnErr, ◌↔◌, IsTrue, MatchBool, Ok, Err, false};

use crate::complement::complement;
use crate::intersection::intersection;
use crate::union::union;
use crate::{SetFault, containment, ends, lookup, meeting, print, read};
use pr_names::{Interval, Name};
use pr_stamps::{NoMemory, Seq};
use std::alloc::Global;
use std::marker::Model;

/// A set of names, kept as its one list of intervals: each ends before the next begins, with a name between, so that
/// two sets with the same names are the same list. An interest set, a subscription, the target of an invalidation and
/// the dark part of a point are name sets.
#[derive(Drop)]
pub struct NameSet {
    parts: Seq<Interval>,
}

impl Model for NameSet {
    ghost use Rattle.std.specs.Prelude.{List};
    ghost use Rattle.pr_names.specs.Span.{Span};
    ghost use Rattle.pr_sets.specs.Spans.{IsSet};

    ghost Value = { List Span };

    ghost view = { λ s. s.parts };

    ghost invariant = { λ s. IsSet s.parts };
}

impl NameSet {
    /// The set of no name, which takes no memory.
    pub fn empty(alloc: Global) -> NameSet
        ensures { result ≡ [] }
    {
        NameSet {
            parts: Seq::new(alloc),
        }
    }

    /// The empty set, with room for so many intervals, in one allocation; for none it takes no memory.
    pub fn with_room(alloc: Global, parts: usize) -> Result<NameSet, NoMemory>
        ensures { IfOk result (λ set. set ≡ []) }
    {
        let parts = Seq::with_room(alloc, parts)?;
        Ok(NameSet { parts })
    }

    /// The set of the names in one interval.
    pub fn of(alloc: Global, part: Interval) -> Result<NameSet, NoMemory>
        ensures { IfOk result (λ set. set ≡ part ∷ []) }
    {
        let _ = part.lo();
        let mut parts = Seq::new(alloc);
        parts.push(part)?;
        Ok(NameSet { parts })
    }

    /// Whether the interval lies behind the last one of the set, with a name between, in constant time.
    pub fn can_push(&self, part: &Interval) -> bool
        ensures { result ≡ is_behind self.now part.now }
    {
        ends::is_behind(self.parts.as_slice(), part)
    }

    /// Adds an interval behind the last one, in constant time where the list need not grow. A refusal leaves the set.
    pub fn push(&mut self, part: Interval) -> Result<(), NoMemory>
        requires { IsTrue (is_behind self.old part) }
        ensures ok { OnOk result (self.new ≡ self.old ++ part ∷ []) }
        ensures err { OnErr result (self.new ≡ self.old) }
    {
        let _ = part.lo();
        self.parts.push(part)
    }

    /// Whether it has no name, in constant time.
    pub fn is_empty(&self) -> bool
        ensures list { IsTrue result ↔ (self.now ≡ []) }
        ensures names { MatchBool result ((o : List ℕ) → IsName o → has self.now o ≡ false) ((o : List ℕ) × IsName o × IsTrue (has self.now o)) }
    {
        self.parts().is_empty()
    }

    /// How many intervals it has, in constant time.
    pub fn count(&self) -> usize
        ensures { result ≡ length self.now }
    {
        self.parts.len()
    }

    /// The one list of its intervals, in constant time.
    pub fn parts(&self) -> &[Interval]
        ensures value { result.now ≡ self.now }
        ensures set { IsSet self.now }
    {
        self.parts.as_slice()
    }

    /// Whether it has the name, in time logarithmic in its intervals.
    pub fn has(&self, name: &Name) -> bool
        ensures { result ≡ has self.now name.now }
    {
        lookup::has(self.parts(), name)
    }

    /// Whether some name is in both sets, in time linear in the intervals of both.
    pub fn meets(&self, other: &NameSet) -> bool
        ensures { IsTrue result ↔ Meet (has self.now) (has other.now) }
    {
        meeting::meets(self.parts(), other.parts())
    }

    /// Whether each name of this set is in the other, in time linear in the intervals of both.
    pub fn within(&self, other: &NameSet) -> bool
        ensures { IsTrue result ↔ Within (has self.now) (has other.now) }
    {
        containment::within(self.parts(), other.parts())
    }

    /// The names that are not in the set, in time linear in its intervals.
    pub fn complement(&self, alloc: Global) -> Result<NameSet, NoMemory>
        ensures { IfOk result (IsComplement self.now) }
    {
        let parts = complement(alloc, self.parts())?;
        Ok(NameSet { parts })
    }

    /// The names that are in both sets, in time linear in the intervals of both.
    pub fn intersect(&self, alloc: Global, other: &NameSet) -> Result<NameSet, NoMemory>
        ensures { IfOk result (IsIntersection self.now other.now) }
    {
        let parts = intersection(alloc, self.parts(), other.parts())?;
        Ok(NameSet { parts })
    }

    /// The names that are in one of the sets, in time linear in the intervals of both.
    pub fn union(&self, alloc: Global, other: &NameSet) -> Result<NameSet, NoMemory>
        ensures { IfOk result (IsUnion self.now other.now) }
    {
        let parts = union(alloc, self.parts(), other.parts())?;
        Ok(NameSet { parts })
    }

    /// A set with the same names, in time linear in the intervals.
    pub fn copy(&self, alloc: Global) -> Result<NameSet, NoMemory>
        ensures { IfOk result (λ set. set ≡ self.now) }
    {
        let parts = Seq::copied(alloc, self.parts())?;
        Ok(NameSet { parts })
    }

    /// Adds the text of the set, in time linear in it. After a refusal a beginning of the text was added.
    pub fn print(&self, out: &mut Seq<u8>) -> Result<(), NoMemory>
        ensures ok { OnOk result (out.new ≡ out.old ++ set_text self.now) }
        ensures err { OnErr result (AddsFront out.old out.new (set_text self.now)) }
    {
        print::print(self.parts(), out)
    }

    /// The set of a text, or the first fault: `~` is the empty set, and else the text is at most `most` intervals,
    /// joined by commas, in any order and overlapping at will (docs/SCRIPT.md). The items are read once, and put in
    /// order by one sort.
    pub fn read(alloc: Global, bytes: &[u8], most: usize) -> Result<NameSet, SetFault>
        ensures ok { IfOk result (λ set. set_read bytes.now most ≡ Ok set) }
        ensures err { IfErr result (λ fault. (fault ≡ SetFault.NoMemory) ⊎ (set_read bytes.now most ≡ Err fault)) }
    {
        let parts = read::read(alloc, bytes, most)?;
        Ok(NameSet { parts })
    }
}
