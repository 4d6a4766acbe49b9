// A list in pages.
ghost use Rattle.pr_story.specs.Paged.{AreFull, paged};
ghost use Rattle.std.specs.Prelude.{◌≡◌, [], ◌∷◌, ◌++◌, ◌<◌, ◌≤◌, ◌+◌, OnOk, OnErr, get_or, length};

use pr_stamps::{NoMemory, Roomy};
use std::alloc::Global;
use std::marker::Model;
use std::mem;

// The items of a page.
const PAGE: usize = 256;

// The most pages that are full, so that no sum of their items is past the end of a `usize`.
const PAGES: usize = 1 << 40;

/// A list that grows page by page, so that items stay where they are put, and no place that it had lies idle behind it.
/// The first page alone grows, by doubling; all but the last page are full. Contracts see it as they see a `Roomy`.
#[derive(Drop)]
pub struct Paged<T> {
    alloc: Global,
    full: Roomy<Roomy<T>>,
    last: Roomy<T>,
}

impl<T> Model for Paged<T> {
    ghost use Rattle.std.specs.Prelude.{◌≤◌, ◌-◌, length, min};
    ghost use Rattle.pr_stamps.specs.Kept.{Kept};
    ghost use Rattle.pr_story.specs.Paged.{AreFull, paged};

    ghost Value = { Kept T };

    ghost view = { λ p. record { items = paged p.full.items p.last.items; room = min p.last.room (256 - length p.last.items) } };

    ghost invariant = { λ p. AreFull 256 p.full.items × (length p.full.items ≤ 1099511627776) × (length p.last.items ≤ 256) };
}

impl<T: Drop> Paged<T> {
    /// The empty list, which takes no memory.
    pub fn new(alloc: Global) -> Self
        ensures { result.items ≡ [] }
    {
        Paged {
            alloc,
            full: Roomy::new(alloc),
            last: Roomy::new(alloc),
        }
    }

    /// Keeps a place for one item more, in amortised constant time. A refusal changes nothing.
    pub fn reserve(&mut self) -> Result<(), NoMemory>
        ensures ok { OnOk result (0 < self.new.room) }
        ensures err { OnErr result (self.new ≡ self.old) }
        ensures items { self.new.items ≡ self.old.items }
    {
        if self.last.len() < PAGE {
            return self.last.reserve(1);
        }
        turn_page(self.alloc, &mut self.full, &mut self.last)
    }

    /// Adds an item at a place that was kept, in constant time and without taking memory.
    pub fn push(&mut self, item: T)
        requires { 0 < self.old.room }
        ensures items { self.new.items ≡ self.old.items ++ item ∷ [] }
        ensures room { self.old.room ≤ self.new.room + 1 }
    {
        self.last.push(item);
    }

    pub fn len(&self) -> usize
        ensures { result ≡ length self.now.items }
    {
        self.full.len() * PAGE + self.last.len()
    }

    /// The item at this place, in constant time.
    pub fn get(&self, place: usize) -> &T
        requires { place < length self.now.items }
        ensures { (d : T) → result.now ≡ get_or self.now.items place d }
    {
        let page = page_at(self.full.as_slice(), &self.last, place / PAGE);
        &page.as_slice()[place % PAGE]
    }
}

// Puts the last page, which is full, to the full ones, and begins another.
fn turn_page<T: Drop>(
    alloc: Global,
    full: &mut Roomy<Roomy<T>>,
    last: &mut Roomy<T>,
) -> Result<(), NoMemory>
    requires full { AreFull 256 full.old.items × (length full.old.items ≤ 1099511627776) }
    requires last { length last.old.items ≡ 256 }
    ensures full { AreFull 256 full.new.items × (length full.new.items ≤ 1099511627776) }
    ensures items { paged full.new.items last.new.items ≡ paged full.old.items last.old.items }
    ensures ok { OnOk result ((last.new.items ≡ []) × (256 ≤ last.new.room)) }
    ensures err { OnErr result (last.new ≡ last.old) }
{
    if full.len() == PAGES {
        return Err(NoMemory);
    }
    full.reserve(1)?;
    let mut page = Roomy::new(alloc);
    page.reserve(PAGE)?;
    full.push(mem::replace(last, page));
    Ok(())
}

// The page of this number, where the last one has the greatest.
fn page_at<'a, T>(full: &'a [Roomy<T>], last: &'a Roomy<T>, at: usize) -> &'a Roomy<T>
    ensures { result.now ≡ get_or full.now at last.now }
{
    full.get(at).unwrap_or(last)
}
