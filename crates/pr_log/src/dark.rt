// The dark names of all nodes' points.
ghost use Rattle.pr_log.specs.Dark.{IsDarkBetween, IsLitToo, IsRowRefined, is_lit_in, sets_of};
ghost use Rattle.pr_log.specs.Sets.{IsDarkAt, is_gathered, is_lit_at};
ghost use Rattle.pr_names.specs.Name.{IsName};
ghost use Rattle.pr_sets.specs.Spans.{IsSetOf};
ghost use Rattle.pr_stamps.specs.Point.{Point};
ghost use Rattle.pr_vectors.specs.Vector.{Covers, clock_of};
ghost use Rattle.std.specs.Prelude.{◌≡◌, ◌≤◌, ◌<◌, ◌+◌, ◌⊎◌, ◌↔◌, ℕ, List, [], length, IfOk, IsTrue, OnOk, false};

use crate::collector::Collector;
use crate::segments::Segments;
use pr_sets::NameSet;
use pr_stamps::{NODES, NoMemory};
use pr_vectors::{Clocked, PackedVector, Vector};
use std::alloc::Global;
use std::marker::Model;

// By node the dark sets of its points. Own points are lit, so their row stays empty.
#[derive(Drop)]
pub struct Dark {
    rows: Vec<Segments>,
}

impl Model for Dark {
    ghost use Rattle.std.specs.Prelude.{◌≡◌, List, ℕ, length};
    ghost use Rattle.pr_names.specs.Span.{Span};

    ghost Value = { List (List (ℕ × List Span)) };

    ghost view = { λ d. d.rows.items };

    ghost invariant = { λ d. length d.rows.items ≡ 32 };
}

impl Dark {
    // Every name is dark at each point of others.
    pub fn new(alloc: Global) -> Result<Dark, NoMemory>
        ensures { IfOk result (λ d. (n : ℕ) → sets_of d n ≡ []) }
    {
        let mut rows = Vec::with_capacity(alloc, NODES as usize)?;
        for _ in 0..NODES {
            rows.push(Segments::new(alloc))?;
        }
        Ok(Dark { rows })
    }

    // The names that the target lacks are lit too at the points between the vectors.
    pub fn refine(
        &mut self,
        own: u32,
        from: &PackedVector,
        to: &PackedVector,
        target: &NameSet,
    ) -> Result<(), NoMemory>
        ensures { OnOk result (IsLitToo own self.old self.new from.now to.now target.now) }
    {
        let _ = to.at(0);
        refine_rows(&mut self.rows, own, from, to, target)?;
        Ok(())
    }

    // Forgets what stands below the cut alone.
    pub fn forget(&mut self, own: u32, cut: &Vector)
        ensures { (o : List ℕ) (p : Point) → ¬ Covers cut.now p → is_lit_in own self.new o p ≡ is_lit_in own self.old o p }
    {
        forget_rows(&mut self.rows, cut);
    }

    // The names that are dark at a point between the vectors.
    pub fn between(
        &self,
        alloc: Global,
        own: u32,
        from: &Vector,
        to: &Vector,
    ) -> Result<NameSet, NoMemory>
        ensures { IfOk result (λ set. IsSetOf set (IsDarkBetween own self.now from.now to.now)) }
    {
        let _ = to.at(0);
        let mut names = Collector::new(alloc);
        for n in 0..to.nodes() {
            let row = &self.rows[n as usize];
            collect_row(row, n == own, from.at(n), to.at(n), &mut names)?;
        }
        names.union()
    }
}

fn refine_rows(
    rows: &mut Vec<Segments>,
    own: u32,
    from: &PackedVector,
    to: &PackedVector,
    target: &NameSet,
) -> Result<(), NoMemory>
    requires { length rows.old.items ≡ 32 }
    ensures len { length rows.new.items ≡ 32 }
    ensures each { OnOk result ((n : ℕ) → n < 32 → ¬ (n ≡ own) → IsRowRefined (clock_of from.now n) (clock_of to.now n) target.now (sets_of rows.old.items n) (sets_of rows.new.items n)) }
{
    let mut start = 0;
    while let Some(n) = to.next_above(from, start) {
        if n != own {
            let row = &mut rows[n as usize];
            row.refine(from.at(n) + 1, to.at(n), target)?;
        }
        start = n + 1;
    }
    Ok(())
}

fn forget_rows(rows: &mut Vec<Segments>, cut: &Vector)
    requires { length rows.old.items ≡ 32 }
    ensures len { length rows.new.items ≡ 32 }
    ensures each { (n : ℕ) → n < 32 → (o : List ℕ) (c : ℕ) → clock_of cut.now n < c → is_lit_at (sets_of rows.new.items n) o c ≡ is_lit_at (sets_of rows.old.items n) o c }
{
    for n in 0..cut.nodes() {
        let row = &mut rows[n as usize];
        row.forget(cut.at(n));
    }
}

// Adds the names that are dark at a clock above `from`, up to `to`.
fn collect_row(
    row: &Segments,
    own: bool,
    from: u64,
    to: u64,
    names: &mut Collector,
) -> Result<(), NoMemory>
    requires { to ≤ 4611686018427387903 }
    ensures { OnOk result ((o : List ℕ) → IsName o → IsTrue (is_gathered names.new o) ↔ (IsTrue (is_gathered names.old o) ⊎ ((own ≡ false) × IsDarkAt row.now (from + 1) to o))) }
{
    if own || to <= from {
        return Ok(());
    }
    row.collect(from + 1, to, names)
}
