// The bodies that a stream sent since its last attach.
ghost use Rattle.pr_inval.specs.Standing.{was_sent};
ghost use Rattle.pr_stamps.specs.Point.{Point, is_this};
ghost use Rattle.std.specs.Prelude.{◌≡◌, ◌≤◌, ◌<◌, ◌+◌, ◌||◌, [], ℕ, List, OnOk};

use crate::sent_body::SentBody;
use pr_names::Name;
use pr_stamps::{NoMemory, Stamp};
use std::alloc::Global;
use std::collections::HashSet;
use std::marker::Model;

/// A set of bodies by their hash, which contracts see as a list with room.
#[derive(Drop)]
pub struct SentBodies {
    bodies: HashSet<SentBody>,
}

impl Model for SentBodies {
    ghost use Rattle.std.specs.HashSet.{spare};
    ghost use Rattle.std.specs.Prelude.{map};
    ghost use Rattle.pr_inval.specs.Standing.{SentBody};
    ghost use Rattle.pr_stamps.specs.Kept.{Kept};

    ghost Value = { Kept SentBody };

    ghost view = { λ s. record { items = map (λ b. record { name = b.name; stamp = record { clock = b.clock; node = b.node } }) s.bodies.keys; room = spare s.bodies } };
}

impl SentBodies {
    pub fn new(alloc: Global) -> SentBodies
        ensures { result.items ≡ [] }
    {
        SentBodies {
            bodies: HashSet::new(alloc),
        }
    }

    pub fn has(&self, name: &Name, stamp: &Stamp) -> bool
        ensures { result ≡ was_sent self.now.items name.now stamp.now }
    {
        self.bodies.contains(&SentBody::of(name, stamp))
    }

    pub fn reserve(&mut self) -> Result<(), NoMemory>
        ensures ok { OnOk result (0 < self.new.room) }
        ensures kept { self.old.room ≤ self.new.room }
        ensures same { was_sent self.new.items ≡ was_sent self.old.items }
    {
        self.bodies.reserve(1)?;
        Ok(())
    }

    pub fn note(&mut self, name: &Name, stamp: &Stamp)
        requires { 0 < self.old.room }
        ensures room { self.old.room ≤ self.new.room + 1 }
        ensures noted { (o : List ℕ) (t : Point) → was_sent self.new.items o t ≡ (is_this name.now stamp.now o t || was_sent self.old.items o t) }
    {
        let _ = self.bodies.insert(SentBody::of(name, stamp));
    }

    pub fn clear(&mut self)
        ensures empty { self.new.items ≡ [] }
        ensures kept { self.old.room ≤ self.new.room }
    {
        self.bodies.clear();
    }
}
