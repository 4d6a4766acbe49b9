// The turn of a stream.
ghost use Rattle.pr_inval.specs.Standing.{means};
ghost use Rattle.pr_names.specs.Name.{IsName};
ghost use Rattle.pr_sets.specs.Spans.{IsSetOf, has};
ghost use Rattle.pr_story.specs.Sending.{HasBody, IsAhead, IsBodyOf, IsBodyTurn, IsNextName, turn_of};
ghost use Rattle.pr_story.specs.Told.{IsDarkBetween};
ghost use Rattle.pr_story.specs.Turns.{IsOmitted, IsTarget, IsTurn, IsWithheld};
ghost use Rattle.std.specs.Prelude.{◌≡◌, ◌⊎◌, ◌↔◌, ℕ, List, IfOk, IsTrue, false, reverse};

use crate::Entry;
use crate::plain::Next;
use crate::plain::bodies::held_body;
use crate::plain::names::{names_known, with_name};
use crate::plain::newest::newest_known;
use crate::plain::vectors::{current_vector, cuts_of};
use crate::plain::withheld::{dark_between, omitted_between};
use crate::plain::writes::next_write;
use pr_inval::{Kind, Session, target_for};
use pr_names::Name;
use pr_sets::NameSet;
use pr_stamps::NoMemory;
use pr_vectors::{PackedVector, Vector};
use std::alloc::Global;

// The names of which something is withheld between two vectors.
#[derive(Drop)]
struct Withheld {
    dark: NameSet,
    omitted: NameSet,
}

fn found_between(
    alloc: Global,
    node: u32,
    entries: &[Entry],
    names: &NameSet,
    from: &Vector,
    to: &Vector,
) -> Result<Withheld, NoMemory>
    ensures dark { IfOk result (λ w. IsSetOf w.dark (IsDarkBetween node (reverse entries.now) from.now to.now)) }
    ensures omitted { IfOk result (λ w. IsSetOf w.omitted (IsOmitted (reverse entries.now) names.now from.now to.now)) }
{
    let dark = dark_between(alloc, node, entries, from, to)?;
    let omitted = omitted_between(alloc, entries, names, from, to)?;
    Ok(Withheld { dark, omitted })
}

// The target of an imprecise message.
fn target(
    alloc: Global,
    node: u32,
    entries: &[Entry],
    names: &NameSet,
    from: &Vector,
    to: &Vector,
) -> Result<NameSet, NoMemory>
    ensures { IfOk result (IsTarget node (reverse entries.now) names.now from.now to.now) }
{
    let found = found_between(alloc, node, entries, names, from, to)?;
    target_for(alloc, &found.omitted, &found.dark, names)
}

// Whether nothing is withheld.
fn is_nothing(
    alloc: Global,
    node: u32,
    entries: &[Entry],
    names: &NameSet,
    from: &Vector,
    to: &Vector,
) -> Result<bool, NoMemory>
    ensures nothing { IfOk result (λ b. IsTrue b → (o : List ℕ) → IsName o → ¬ IsWithheld node (reverse entries.now) names.now from.now to.now o) }
    ensures some { IfOk result (λ b. b ≡ false → (o : List ℕ) × IsName o × IsWithheld node (reverse entries.now) names.now from.now to.now o) }
{
    let found = found_between(alloc, node, entries, names, from, to)?;
    Ok(is_empty(&found.dark, &found.omitted))
}

// Whether neither set has a name.
fn is_empty(a: &NameSet, b: &NameSet) -> bool
    ensures none { IsTrue result → (o : List ℕ) → IsName o → ¬ (IsTrue (has a.now o) ⊎ IsTrue (has b.now o)) }
    ensures some { result ≡ false → (o : List ℕ) × IsName o × (IsTrue (has a.now o) ⊎ IsTrue (has b.now o)) }
{
    if a.is_empty() { b.is_empty() } else { false }
}

// The invalidation that is sent where the position does not hold the vector.
fn ahead(
    alloc: Global,
    node: u32,
    entries: &[Entry],
    names: &NameSet,
    position: &Vector,
) -> Result<Kind, NoMemory>
    ensures { IfOk result (IsAhead node (reverse entries.now) names.now position.now) }
{
    let vector = current_vector(entries);
    match next_write(entries, names, position) {
        None => {
            let to = position.join(&vector);
            let target = target(alloc, node, entries, names, position, &to)?;
            Ok(Kind::Imprecise {
                from: PackedVector::of(alloc, position)?,
                to: PackedVector::of(alloc, &to)?,
                target,
            })
        }
        Some(write) => {
            let before = position.join(&vector.below(&write.stamp));
            let nothing = is_nothing(alloc, node, entries, names, position, &before)?;
            if nothing {
                let to = position.join(&vector.stamp_cut(&write.stamp));
                return Ok(Kind::Precise {
                    from: PackedVector::of(alloc, position)?,
                    to: PackedVector::of(alloc, &to)?,
                    write,
                });
            }
            let target = target(alloc, node, entries, names, position, &before)?;
            Ok(Kind::Imprecise {
                from: PackedVector::of(alloc, position)?,
                to: PackedVector::of(alloc, &before)?,
                target,
            })
        }
    }
}

// The body of the name's newest write, if it is to be sent.
fn body_of(
    alloc: Global,
    entries: &[Entry],
    session: &Session,
    name: &Name,
) -> Result<Option<Kind>, NoMemory>
    ensures { IfOk result (IsBodyOf (reverse entries.now) (means session.now).standing name.now) }
{
    if !session.sub().has(name) {
        return Ok(None);
    }
    let newest = match newest_known(entries, name) {
        Some(newest) => newest,
        None => return Ok(None),
    };
    if newest.gone {
        return Ok(None);
    }
    if session.has_sent(name, &newest.stamp) {
        return Ok(None);
    }
    let held = held_body(alloc, entries, name, &newest.stamp)?;
    match held {
        Some(bytes) => Ok(Some(Kind::Body {
            name: *name,
            stamp: newest.stamp,
            bytes,
        })),
        None => Ok(None),
    }
}

// Whether a body of the name is to be sent.
fn sends_body(
    alloc: Global,
    entries: &[Entry],
    session: &Session,
    name: &Name,
) -> Result<bool, NoMemory>
    ensures { IfOk result (λ b. IsTrue b ↔ HasBody (reverse entries.now) (means session.now).standing name.now) }
{
    match body_of(alloc, entries, session, name)? {
        Some(_) => Ok(true),
        None => Ok(false),
    }
}

// The least name of which a body is to be sent.
fn next_name(alloc: Global, entries: &[Entry], session: &Session) -> Result<Option<Name>, NoMemory>
    ensures { IfOk result (IsNextName (reverse entries.now) (means session.now).standing) }
{
    let names = names_known(alloc, entries)?;
    let mut best = None;
    for name in names.as_slice() {
        let sends = sends_body(alloc, entries, session, name)?;
        best = with_name(&best, name, sends);
    }
    Ok(best)
}

// The body that is sent where the position holds the vector.
fn next_body(alloc: Global, entries: &[Entry], session: &Session) -> Result<Next, NoMemory>
    ensures { IfOk result (IsBodyTurn (reverse entries.now) (means session.now).standing) }
{
    let name = match next_name(alloc, entries, session)? {
        Some(name) => name,
        None => return Ok(Next::Idle),
    };
    match body_of(alloc, entries, session, &name)? {
        Some(kind) => Ok(Next::Send(kind)),
        None => Ok(Next::Idle),
    }
}

/// The turn of a stream with this session at its source, node `node` with this journal. It looks at each point past
/// the position.
pub fn turn(
    alloc: Global,
    node: u32,
    entries: &[Entry],
    session: &Session,
) -> Result<Next, NoMemory>
    ensures { IfOk result (λ next. IsTurn node (reverse entries.now) (means session.now).standing (turn_of next)) }
{
    let position = session.pos();
    let cut = cuts_of(entries);
    if !cut.le(position) {
        return Ok(Next::Stale(cut));
    }
    if !current_vector(entries).le(position) {
        let kind = ahead(alloc, node, entries, session.sub(), position)?;
        return Ok(Next::Send(kind));
    }
    if session.bodies() {
        return next_body(alloc, entries, session);
    }
    Ok(Next::Idle)
}
