// Whether the node and the definitions agree.

use crate::tests::acting::act;
use crate::tests::call::Call;
use crate::tests::expected;
use crate::tests::same::is_same_entry;
use crate::tests::world::World;
use pr_story::{Entry, Journal};
use std::alloc::Global;

/// Whether each call of the list makes the one entry that the definitions give. None, where a call cannot be made.
pub fn are_alike(alloc: Global, world: &mut World, calls: &[Call<'_>]) -> Option<bool> {
    for call in calls {
        if !is_alike(alloc, world, call)? {
            return Some(false);
        }
    }
    Some(true)
}

/// Whether the call makes the one entry that the definitions give.
pub fn is_alike(alloc: Global, world: &mut World, call: &Call<'_>) -> Option<bool> {
    let node = world.node_of(call)?;
    let entry = expected::entry(alloc, world, call)?;
    let alike = makes(alloc, world, call, node, &entry);
    note(world, node, entry);
    alike
}

// What the node is to have done, for what it does next.
fn note(world: &mut World, node: u32, entry: Entry) {
    if let Some(site) = world.sites.get_mut(node as usize) {
        let _ = site.told.push(entry);
    }
}

// Whether the call makes this entry alone, behind those that the node made before.
fn makes(
    alloc: Global,
    world: &mut World,
    call: &Call<'_>,
    node: u32,
    entry: &Entry,
) -> Option<bool> {
    act(alloc, world, call)?;
    world.note(&entry.event);
    let site = world.site(node)?;
    Some(is_added(site.node.journal(), site.told.len(), entry))
}

// Whether behind so many entries the journal has this one alone.
fn is_added(journal: &Journal, before: usize, entry: &Entry) -> bool {
    match journal.last() {
        Some(last) => journal.len() - 1 == before && is_same_entry(last, entry),
        None => false,
    }
}
