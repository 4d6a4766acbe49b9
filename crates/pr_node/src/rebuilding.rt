// The stores of a node are made again from what it did.
ghost use Rattle.pr_node.specs.Rebuilding.{IsOfNode, MayTell};
ghost use Rattle.pr_node.specs.Ties.{IsTied};
ghost use Rattle.pr_sets.specs.Sets.{AreApart};
ghost use Rattle.pr_story.specs.declared.entry.Entry.{Entry};
ghost use Rattle.pr_story.specs.declared.event.Event.TheVariants.{Cut, Dropped};
ghost use Rattle.pr_story.specs.History.{current_vector};
ghost use Rattle.std.specs.Prelude.{◌≡◌, ◌<◌, [], ◌∷◌, ℕ, List, IfOk, OnOk, reverse};

use crate::Stores;
use crate::taking::take;
use crate::writing::keep_write;
use pr_bodies::Bodies;
use pr_gaps::Gaps;
use pr_log::Log;
use pr_marks::Marks;
use pr_names::Name;
use pr_sets::NameSet;
use pr_stamps::{NoMemory, Seq};
use pr_story::{Event, Journal};
use std::alloc::Global;

// The stores of a node that did this.
pub fn rebuilt(
    alloc: Global,
    id: u32,
    sets: Seq<NameSet>,
    journal: &Journal,
) -> Result<Stores, NoMemory>
    requires id { id < 32 }
    requires apart { AreApart sets }
    requires told { IsOfNode id (reverse journal.now.items) }
    ensures tied { IfOk result (λ stores. IsTied id (reverse journal.now.items) stores) }
    ensures sets { IfOk result (λ stores. stores.gaps.sets ≡ sets) }
{
    let mut stores = fresh(alloc, id, sets)?;
    for place in 0..journal.len() {
        tell(alloc, &mut stores, &journal.entry(place).event)?;
    }
    Ok(stores)
}

// The stores of a node that has done nothing.
pub fn fresh(alloc: Global, id: u32, sets: Seq<NameSet>) -> Result<Stores, NoMemory>
    requires id { id < 32 }
    requires apart { AreApart sets }
    ensures tied { IfOk result (λ stores. IsTied id [] stores) }
    ensures sets { IfOk result (λ stores. stores.gaps.sets ≡ sets) }
{
    Ok(Stores {
        log: Log::new(alloc, id)?,
        gaps: Gaps::new(alloc, id, sets)?,
        bodies: Bodies::new(alloc),
        marks: Marks::new(alloc),
    })
}

// What the event tells goes to the stores.
fn tell(alloc: Global, stores: &mut Stores, event: &Event) -> Result<(), NoMemory>
    requires { (n : ℕ) × (j : List Entry) × IsTied n j stores.old × MayTell n j event.now }
    ensures tied { OnOk result ((n : ℕ) (j : List Entry) (time caller : ℕ) → IsTied n j stores.old → MayTell n j event.now → IsTied n (record { time = time; caller = caller; event = event.now } ∷ j) stores.new) }
    ensures sets { stores.new.gaps.sets ≡ stores.old.gaps.sets }
{
    match event {
        Event::Wrote { write, body, .. } => keep_write(stores, write, body.as_slice()),
        Event::Accepted { msg, .. } => take(alloc, stores, &msg.kind),
        Event::Cut { .. } => {
            cut(stores);
            Ok(())
        }
        Event::Dropped { name } => {
            drop_body(stores, name);
            Ok(())
        }
        _ => Ok(()),
    }
}

// The log is cut at the node's vector, and the marks that it covers are forgotten.
pub fn cut(stores: &mut Stores)
    ensures tied { (n : ℕ) (j : List Entry) (time caller : ℕ) (at : List ℕ) → IsTied n j stores.old → at ≡ current_vector j → IsTied n (record { time = time; caller = caller; event = Cut at } ∷ j) stores.new }
    ensures sets { stores.new.gaps.sets ≡ stores.old.gaps.sets }
{
    stores.log.cut();
    stores.marks.forget(stores.log.vector());
}

// The bodies of the name are dropped.
pub fn drop_body(stores: &mut Stores, name: &Name)
    ensures tied { (n : ℕ) (j : List Entry) (time caller : ℕ) → IsTied n j stores.old → IsTied n (record { time = time; caller = caller; event = Dropped name.now } ∷ j) stores.new }
    ensures sets { stores.new.gaps.sets ≡ stores.old.gaps.sets }
{
    stores.bodies.drop_all(name);
}
