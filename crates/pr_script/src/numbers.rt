// A few numbers.
ghost use Rattle.pr_script.specs.Known.{has_number, with_number, without_number};
ghost use Rattle.std.specs.Prelude.{◌≡◌, [], OnOk, length};

use pr_stamps::NoMemory;
use std::alloc::Global;
use std::marker::Model;

/// Numbers, each once, in the order in which they came. Each call goes over all of them.
#[derive(Drop)]
pub struct Numbers {
    items: Vec<u32>,
}

impl Model for Numbers {
    ghost use Rattle.std.specs.Prelude.{List, ℕ};

    ghost Value = { List ℕ };

    ghost view = { λ n. n.items.items };
}

impl Numbers {
    pub fn new(alloc: Global) -> Numbers
        ensures { result ≡ [] }
    {
        Numbers {
            items: Vec::new(alloc),
        }
    }

    pub fn len(&self) -> usize
        ensures { result ≡ length self.now }
    {
        self.items.len()
    }

    pub fn has(&self, number: u32) -> bool
        ensures { result ≡ has_number self.now number }
    {
        self.items.iter().any(|n| *n == number)
    }

    /// Adds the number, unless it is there.
    pub fn add(&mut self, number: u32) -> Result<(), NoMemory>
        ensures { OnOk result (self.new ≡ with_number self.old number) }
    {
        if self.has(number) {
            return Ok(());
        }
        match self.items.push(number) {
            Ok(()) => Ok(()),
            Err(_) => Err(NoMemory),
        }
    }

    pub fn remove(&mut self, number: u32)
        ensures { self.new ≡ without_number self.old number }
    {
        self.items.retain(|n| *n != number);
    }

    pub fn clear(&mut self)
        ensures { self.new ≡ [] }
    {
        self.items.clear();
    }
}
