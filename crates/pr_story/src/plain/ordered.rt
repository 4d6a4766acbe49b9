// Names in order.
ghost use Rattle.pr_story.specs.Marking.{AreInOrder, names_below, names_past};
ghost use Rattle.pr_names.specs.Order.{NamesRise};
ghost use Rattle.std.specs.Prelude.{◌≡◌, ◌⊎◌, ◌++◌, ◌↔◌, ℕ, List, Contains, IfOk, IsTrue, OnOk};

use crate::plain::is_same;
use pr_names::Name;
use pr_stamps::{NoMemory, Seq};
use std::alloc::Global;

// Whether the name is one of these.
fn is_among(names: &[Name], name: &Name) -> bool
    ensures { IsTrue result ↔ Contains names.now name.now }
{
    for other in names {
        if is_same(other, name) {
            return true;
        }
    }
    false
}

// Adds the names that come before this one.
fn add_below(list: &mut Seq<Name>, names: &[Name], name: &Name) -> Result<(), NoMemory>
    ensures { OnOk result (list.new ≡ list.old ++ names_below names.now name.now) }
{
    for other in names {
        if other.is_below(name) {
            list.push(*other)?;
        }
    }
    Ok(())
}

// Adds the names that come after this one.
fn add_past(list: &mut Seq<Name>, names: &[Name], name: &Name) -> Result<(), NoMemory>
    ensures { OnOk result (list.new ≡ list.old ++ names_past names.now name.now) }
{
    for other in names {
        if name.is_below(other) {
            list.push(*other)?;
        }
    }
    Ok(())
}

// The names with this one too, in its place.
fn with_name(alloc: Global, names: Seq<Name>, name: &Name) -> Result<Seq<Name>, NoMemory>
    ensures rise { IfOk result (λ more. NamesRise names → NamesRise more) }
    ensures same { IfOk result (λ more. (o : List ℕ) → Contains more o ↔ (Contains names o ⊎ (o ≡ name.now))) }
{
    if is_among(names.as_slice(), name) {
        return Ok(names);
    }
    let mut more = Seq::new(alloc);
    add_below(&mut more, names.as_slice(), name)?;
    more.push(*name)?;
    add_past(&mut more, names.as_slice(), name)?;
    Ok(more)
}

/// The names in their order, each once. It reads the list once for each name.
pub fn in_order(alloc: Global, names: &[Name]) -> Result<Seq<Name>, NoMemory>
    ensures { IfOk result (AreInOrder names.now) }
{
    let mut ordered = Seq::new(alloc);
    for name in names {
        ordered = with_name(alloc, ordered, name)?;
    }
    Ok(ordered)
}
