// The bodies of a name.
ghost use Rattle.pr_bodies.specs.Bodies.{body_of, renewed};
ghost use Rattle.pr_stamps.specs.Point.{Point, is_before, is_same};
ghost use Rattle.std.specs.Prelude.{◌≡◌, ◌++◌, ◌∷◌, MatchOption, None, OnOk, Some, [], cond};

use pr_stamps::{Bytes, NoMemory, Stamp};
use std::alloc::Global;
use std::marker::Model;

/// Each body with the stamp of its write. A newer write makes the others useless, so that there is mostly one.
#[derive(Drop)]
pub struct Row {
    bodies: Vec<(Stamp, Bytes)>,
}

impl Model for Row {
    ghost use Rattle.std.specs.Prelude.{List, ℕ};
    ghost use Rattle.pr_stamps.specs.Point.{Point};

    ghost Value = { List (Point × List ℕ) };

    ghost view = { λ r. r.bodies.items };
}

impl Row {
    pub fn new(alloc: Global) -> Row
        ensures { result ≡ [] }
    {
        Row {
            bodies: Vec::new(alloc),
        }
    }

    /// Holds a body, in place of one with its stamp, in time linear in the bodies.
    pub fn put(&mut self, stamp: &Stamp, bytes: Bytes) -> Result<(), NoMemory>
        ensures { OnOk result ((t : Point) → body_of self.new t ≡ cond (is_same stamp.now t) (Some bytes) (body_of self.old t)) }
    {
        self.remove(stamp);
        self.push(stamp, bytes)
    }

    /// Holds a body, in place of those whose stamps are not greater, in time linear in the bodies.
    pub fn renew(&mut self, stamp: &Stamp, bytes: Bytes) -> Result<(), NoMemory>
        ensures { OnOk result ((t : Point) → body_of self.new t ≡ renewed stamp.now bytes t (body_of self.old t)) }
    {
        self.keep_after(stamp);
        self.push(stamp, bytes)
    }

    // Adds a body behind the others. The first one takes room for itself alone, since mostly no other comes beside it.
    fn push(&mut self, stamp: &Stamp, bytes: Bytes) -> Result<(), NoMemory>
        ensures { OnOk result (self.new ≡ self.old ++ (stamp.now, bytes) ∷ []) }
    {
        if self.bodies.is_empty() {
            self.bodies.reserve_exact(1)?;
        }
        self.bodies.push((*stamp, bytes))?;
        Ok(())
    }

    fn keep_after(&mut self, stamp: &Stamp)
        ensures { (t : Point) → body_of self.new t ≡ cond (is_before stamp.now t) (body_of self.old t) None }
    {
        self.bodies.retain(|(held, _)| stamp.is_before(held));
    }

    fn remove(&mut self, stamp: &Stamp)
        ensures { (t : Point) → body_of self.new t ≡ cond (is_same stamp.now t) None (body_of self.old t) }
    {
        self.bodies.retain(|(held, _)| *held != *stamp);
    }

    /// The body of this stamp, in time linear in the bodies.
    pub fn get(&self, stamp: &Stamp) -> Option<&[u8]>
        ensures { MatchOption result (body_of self.now stamp.now ≡ None) (λ b. body_of self.now stamp.now ≡ Some b.now) }
    {
        for (held, bytes) in &self.bodies {
            if *held == *stamp {
                return Some(bytes.as_slice());
            }
        }
        None
    }

    /// Drops the bodies with smaller stamps, in time linear in the bodies.
    pub fn settle(&mut self, stamp: &Stamp)
        ensures { (t : Point) → body_of self.new t ≡ cond (is_before t stamp.now) None (body_of self.old t) }
    {
        self.bodies.retain(|(held, _)| !held.is_before(stamp));
    }
}
