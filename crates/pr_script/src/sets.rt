// The sets that a line names.
ghost use Rattle.pr_script.specs.Fields.{Gives, fields_of, wanted};
ghost use Rattle.pr_script.specs.Sets.{are_apart, set_of, sets_of, share};
ghost use Rattle.std.specs.List.{list_any};
ghost use Rattle.std.specs.Prelude.{◌≡◌};

use crate::fields::field;
use crate::refusal::Refusal;
use pr_sets::{NameSet, SetFault};
use pr_stamps::Seq;
use std::alloc::Global;

/// The set that the field is: of 1 to 16 items, and not empty.
pub fn set(alloc: Global, field: &[u8]) -> Result<NameSet, Refusal>
    ensures { Gives (λ x. x) result (wanted 6 (set_of field.now)) }
{
    match NameSet::read(alloc, field, 16) {
        Ok(set) => {
            if set.count() == 0 {
                return Err(Refusal::Why(6));
            }
            Ok(set)
        }
        Err(SetFault::NoMemory) => Err(Refusal::NoMemory),
        Err(_) => Err(Refusal::Why(6)),
    }
}

/// The sets that all the fields are.
pub fn sets(alloc: Global, bytes: &[u8]) -> Result<Seq<NameSet>, Refusal>
    ensures { Gives (λ x. x) result (sets_of (fields_of bytes.now)) }
{
    let mut out = Seq::new(alloc);
    let mut rest = bytes;
    for _ in 0..bytes.len() {
        let (one, more) = match field(rest) {
            Ok(found) => found,
            Err(Refusal::Why(_)) => return Ok(out),
            Err(Refusal::NoMemory) => return Err(Refusal::NoMemory),
        };
        let set = set(alloc, one)?;
        out.push(set)?;
        rest = more;
    }
    Ok(out)
}

/// Whether no two of the sets have a name in common, by comparing each with each.
#[tactic(auto, unfolding(crate::specs::Sets::are_apart))]
pub fn apart(sets: &[NameSet]) -> bool
    ensures { result ≡ are_apart sets.now }
{
    let mut rest = sets;
    while let [first, more @ ..] = rest {
        if meets_one(first, more) {
            return false;
        }
        rest = more;
    }
    true
}

fn meets_one(set: &NameSet, others: &[NameSet]) -> bool
    ensures { result ≡ list_any (λ b. share set.now b) others.now }
{
    for other in others {
        if meet(set, other) {
            return true;
        }
    }
    false
}

fn meet(a: &NameSet, b: &NameSet) -> bool
    ensures { result ≡ share a.now b.now }
{
    let _ = a.parts();
    let _ = b.parts();
    a.meets(b)
}
