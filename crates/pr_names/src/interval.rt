// Intervals of names.
ghost use Rattle.pr_names.specs.Bound.{bound_lt, is_under};
ghost use Rattle.pr_names.specs.Order.{name_lt};
ghost use Rattle.pr_names.specs.Span.{IsSpan, Overlap, holds};
ghost use Rattle.pr_names.specs.Text.{interval_read};
ghost use Rattle.pr_names.specs.declared.bound.Bound.TheVariants.{At};
ghost use Rattle.std.specs.Prelude.{◌≡◌, ◌↔◌, IfOk, IfSome, IsTrue, is_some};

use crate::{Bound, IntervalFault, Name, text};
use std::marker::Model;

/// The names from one on and before a bound, of which there is at least one. It takes no memory.
#[derive(Clone, Copy, Debug, PartialEq, Eq)]
pub struct Interval {
    lo: Name,
    hi: Bound,
}

impl Model for Interval {
    ghost use Rattle.pr_names.specs.Span.{Span, IsSpan};

    ghost Value = { Span };

    ghost view = { λ i. record { lo = i.lo; hi = i.hi } };

    ghost invariant = { λ i. IsSpan (record { lo = i.lo; hi = i.hi }) };

    ghost inverse = { λ s. record { lo = s.lo; hi = s.hi } };
}

impl Interval {
    /// The interval that the bytes spell, or the first fault, in time linear in the bytes. A text is `*` for every
    /// name, `p*` for the names that begin with `p`, `x` for one name, or `lo:hi` for the names from `lo` up to `hi`,
    /// where a `hi` of `~` is the end; docs/SCRIPT.md has the form.
    pub fn read(bytes: &[u8]) -> Result<Interval, IntervalFault>
        ensures value { result ≡ interval_read bytes.now }
        ensures interval { IfOk result (λ i. IsSpan i) }
    {
        let interval = text::read(bytes)?;
        let _ = interval.lo();
        Ok(interval)
    }

    /// The interval from a name up to a bound; None exactly where the bound does not come after the name.
    pub fn new(lo: Name, hi: Bound) -> Option<Interval>
        ensures some { is_some result ≡ is_under lo hi }
        ensures value { IfSome result (λ i. i ≡ record { lo = lo; hi = hi }) }
    {
        let _ = lo.bytes();
        hi.known();
        if hi.is_above(&lo) {
            Some(Interval { lo, hi })
        } else {
            None
        }
    }

    /// The least name of the interval.
    pub fn lo(&self) -> Name
        ensures value { result ≡ self.now.lo }
        ensures interval { IsSpan self.now }
    {
        self.lo
    }

    /// The bound before which its names come.
    pub fn hi(&self) -> Bound
        ensures value { result ≡ self.now.hi }
        ensures interval { IsSpan self.now }
    {
        self.hi
    }

    /// Whether the name is in the interval, by two comparisons.
    pub fn has(&self, name: &Name) -> bool
        ensures { result ≡ holds self.now name.now }
    {
        !name.is_below(&self.lo) && self.hi.is_above(name)
    }

    /// Whether it begins before the other, by one comparison.
    pub fn begins_before(&self, other: &Interval) -> bool
        ensures value { result ≡ name_lt self.now.lo other.now.lo }
        ensures interval { IsSpan self.now }
        ensures other { IsSpan other.now }
    {
        self.lo.is_below(&other.lo)
    }

    /// Whether it ends before the other, by at most one comparison.
    pub fn ends_before(&self, other: &Interval) -> bool
        ensures value { result ≡ bound_lt self.now.hi other.now.hi }
        ensures interval { IsSpan self.now }
        ensures other { IsSpan other.now }
    {
        self.hi.is_below(&other.hi)
    }

    /// Whether it lies behind the other, with a name between, by at most one comparison.
    pub fn is_behind(&self, other: &Interval) -> bool
        ensures { result ≡ bound_lt other.now.hi (At self.now.lo) }
    {
        match &other.hi {
            Bound::At(end) => end.is_below(&self.lo),
            Bound::End => false,
        }
    }

    /// Whether it reaches past the first name of the other, by at most one comparison.
    pub fn reaches(&self, other: &Interval) -> bool
        ensures value { result ≡ is_under other.now.lo self.now.hi }
        ensures interval { IsSpan self.now }
        ensures other { IsSpan other.now }
    {
        self.hi.is_above(&other.lo)
    }

    /// Whether some name is in both intervals, by two comparisons.
    pub fn meets(&self, other: &Interval) -> bool
        ensures { IsTrue result ↔ Overlap self.now other.now }
    {
        other.reaches(self) && self.reaches(other)
    }
}
