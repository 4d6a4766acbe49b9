// The sets of a node.
ghost use Rattle.pr_names.specs.Name.{IsName};
ghost use Rattle.pr_sets.specs.Spans.{has};
ghost use Rattle.pr_sets.specs.Sets.{rest_of, set_of};
ghost use Rattle.std.specs.Prelude.{◌≡◌, ℕ, IfOk, List};

use pr_names::Name;
use pr_sets::NameSet;
use pr_stamps::NoMemory;
use std::alloc::Global;

/// The names in none of the sets.
pub fn rest_of(alloc: Global, sets: &[NameSet]) -> Result<NameSet, NoMemory>
    ensures { IfOk result (λ rest. (o : List ℕ) → IsName o → has rest o ≡ rest_of sets.now o) }
{
    let mut all = NameSet::empty(alloc);
    for set in sets {
        all = all.union(alloc, set)?;
    }
    all.complement(alloc)
}

/// The one of a node's sets that has the name: a declared one, or else the rest.
pub fn set_of(alloc: Global, sets: &[NameSet], name: &Name) -> Result<NameSet, NoMemory>
    ensures { IfOk result (λ set. (o : List ℕ) → IsName o → has set o ≡ set_of sets.now name.now o) }
{
    for set in sets {
        if set.has(name) {
            return set.copy(alloc);
        }
    }
    rest_of(alloc, sets)
}
