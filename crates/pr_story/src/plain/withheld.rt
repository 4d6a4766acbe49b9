// Names of which a precise message would not tell all writes.
ghost use Rattle.pr_inval.specs.declared.write_rec.WriteRec.{WriteRec};
ghost use Rattle.pr_names.specs.Name.{IsName};
ghost use Rattle.pr_sets.specs.Spans.{IsSetOf, has};
ghost use Rattle.pr_stamps.specs.Point.{Point};
ghost use Rattle.pr_story.specs.Search.{IsDarkUpTo, IsOmittedIn, IsUnlit, point};
ghost use Rattle.pr_story.specs.Withheld.{HasMore};
ghost use Rattle.pr_story.specs.Told.{IsDarkBetween, IsLit};
ghost use Rattle.pr_story.specs.Turns.{IsOmitted};
ghost use Rattle.pr_story.specs.declared.entry.Entry.{Entry};
ghost use Rattle.pr_vectors.specs.Vector.{Between};
ghost use Rattle.std.specs.Prelude.{◌↔◌, IsTrue, false, ◌≡◌, ◌≢◌, ◌∷◌, ◌<◌, ◌≤◌, ◌+◌, ℕ, List, IfOk, reverse};

use crate::plain::told::{is_between, is_covered};
use crate::plain::writes::{known_write, write_in};
use crate::{Entry, Event};
use pr_inval::{Kind, WriteRec};
use pr_names::{Interval, Name};
use pr_sets::NameSet;
use pr_stamps::{NODES, NoMemory, Stamp};
use pr_vectors::Vector;
use std::alloc::Global;

// The names that no accepted invalidation lights at the point, where this entry follows.
fn unlit_after(
    alloc: Global,
    entry: &Entry,
    point: &Stamp,
    dark: NameSet,
) -> Result<NameSet, NoMemory>
    ensures { IfOk result (λ set. (j : List Entry) → IsUnlit j point.now dark → IsUnlit (entry.now ∷ j) point.now set) }
{
    match &entry.event {
        Event::Accepted { msg, .. } => match &msg.kind {
            Kind::Precise { from, to, .. } => {
                if is_covered(from, to, point) {
                    return Ok(NameSet::empty(alloc));
                }
            }
            Kind::Imprecise { from, to, target } => {
                if is_covered(from, to, point) {
                    return dark.intersect(alloc, target);
                }
            }
            _ => {}
        },
        _ => {}
    }
    Ok(dark)
}

// The names that no accepted invalidation lights at the point.
fn unlit(alloc: Global, entries: &[Entry], point: &Stamp) -> Result<NameSet, NoMemory>
    ensures { IfOk result (IsUnlit (reverse entries.now) point.now) }
{
    let mut dark = NameSet::empty(alloc).complement(alloc)?;
    for entry in entries {
        dark = unlit_after(alloc, entry, point, dark)?;
    }
    Ok(dark)
}

// The names that are dark at the point.
fn dark_at(
    alloc: Global,
    node: u32,
    entries: &[Entry],
    clock: u64,
    n: u32,
) -> Result<NameSet, NoMemory>
    requires clock { (1 ≤ clock) × (clock ≤ 4611686018427387903) }
    requires node { n < 32 }
    ensures { IfOk result (λ set. IsSetOf set (λ o. ¬ IsLit node (reverse entries.now) o (point clock n))) }
{
    match Stamp::new(clock, n) {
        Some(point) if n != node => unlit(alloc, entries, &point),
        _ => Ok(NameSet::empty(alloc)),
    }
}

// The names that are dark at some point of the node n between the vectors.
fn dark_of_node(
    alloc: Global,
    node: u32,
    entries: &[Entry],
    from: &Vector,
    to: &Vector,
    n: u32,
) -> Result<NameSet, NoMemory>
    requires { n < 32 }
    ensures { IfOk result (λ set. IsSetOf set (IsDarkUpTo node (reverse entries.now) from.now to.now n (n + 1))) }
{
    let mut dark = NameSet::empty(alloc);
    let most = to.at(n);
    for before in from.at(n)..most {
        let here = dark_at(alloc, node, entries, before + 1, n)?;
        dark = dark.union(alloc, &here)?;
    }
    Ok(dark)
}

/// The names that are dark at some point between the vectors. It looks at each point between them.
pub fn dark_between(
    alloc: Global,
    node: u32,
    entries: &[Entry],
    from: &Vector,
    to: &Vector,
) -> Result<NameSet, NoMemory>
    ensures { IfOk result (λ set. IsSetOf set (IsDarkBetween node (reverse entries.now) from.now to.now)) }
{
    let _ = to.at(0);
    let mut dark = NameSet::empty(alloc);
    for n in 0..NODES {
        let here = dark_of_node(alloc, node, entries, from, to, n)?;
        dark = dark.union(alloc, &here)?;
    }
    Ok(dark)
}

// The set of this one name.
fn only(alloc: Global, name: &Name) -> Result<NameSet, NoMemory>
    ensures { IfOk result (λ set. IsSetOf set (λ o. o ≡ name.now)) }
{
    let _ = name.bytes();
    match Interval::new(*name, name.after()) {
        Some(part) => NameSet::of(alloc, part),
        None => Ok(NameSet::empty(alloc)),
    }
}

// Whether the write is none of the stream's and lies between the vectors.
fn is_omitted(write: &WriteRec, names: &NameSet, from: &Vector, to: &Vector) -> bool
    ensures here { IsTrue result ↔ ((has names.now write.now.name ≡ false) × Between from.now to.now write.now.stamp) }
    ensures name { IsName write.now.name }
{
    let _ = write.name.bytes();
    !names.has(&write.name) && is_between(from, to, &write.stamp)
}

// The name of the write that the event tells of, if it is omitted.
fn omitted_name(
    entries: &[Entry],
    event: &Event,
    names: &NameSet,
    from: &Vector,
    to: &Vector,
) -> Option<Name>
    ensures { IsOmittedIn (reverse entries.now) event.now names.now from.now to.now result }
{
    let told = write_in(event)?;
    let write = known_write(entries, &told.stamp)?;
    if is_omitted(&write, names, from, to) {
        Some(write.name)
    } else {
        None
    }
}

// The set with this name too, if there is one.
fn with_name(alloc: Global, set: NameSet, name: &Option<Name>) -> Result<NameSet, NoMemory>
    ensures { IfOk result (HasMore set name.now) }
{
    match name {
        Some(name) => {
            let one = only(alloc, name)?;
            set.union(alloc, &one)
        }
        None => Ok(set),
    }
}

/// The names, none of the stream's, of known writes between the vectors. It reads the list once for each entry.
pub fn omitted_between(
    alloc: Global,
    entries: &[Entry],
    names: &NameSet,
    from: &Vector,
    to: &Vector,
) -> Result<NameSet, NoMemory>
    ensures { IfOk result (λ set. IsSetOf set (IsOmitted (reverse entries.now) names.now from.now to.now)) }
{
    let mut omitted = NameSet::empty(alloc);
    for entry in entries {
        let name = omitted_name(entries, &entry.event, names, from, to);
        omitted = with_name(alloc, omitted, &name)?;
    }
    Ok(omitted)
}
