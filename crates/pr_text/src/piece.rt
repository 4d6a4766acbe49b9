// One node's part of a vector's text.
ghost use Rattle.pr_text.specs.Texts.{part};
ghost use Rattle.std.specs.Prelude.{◌≡◌, ◌++◌, ◌∷◌, ◌<◌, [], IfOk, IfSome, OnOk, decimal, cond, length};

use crate::vector::push_clock;
use pr_script::Bytes;
use pr_stamps::{NoMemory, Seq};
use std::alloc::Global;
use std::marker::Model;

// A node's label, and the text of the clock of it that was kept last. Contracts see it as the label.
#[derive(Drop)]
pub struct Piece {
    label: Bytes,
    // The clock that `text` tells, or 0 where it tells none.
    clock: u64,
    text: Bytes,
}

impl Model for Piece {
    ghost use Rattle.std.specs.Prelude.{List, ℕ};
    ghost use Rattle.pr_text.specs.Texts.{IsKept};

    ghost Value = { List ℕ };

    ghost view = { λ p. p.label };

    ghost invariant = { λ p. IsKept p.label p.clock p.text };
}

impl Piece {
    // With no clock.
    pub fn new(alloc: Global, label: &[u8]) -> Result<Piece, NoMemory>
        ensures { IfOk result (λ piece. piece ≡ label.now) }
    {
        let label = Seq::copied(alloc, label)?;
        Ok(Piece {
            label,
            clock: 0,
            text: Seq::new(alloc),
        })
    }

    // Adds what `push_clock` adds, as one copy where the clock is the kept one.
    pub fn push(&self, some: bool, clock: u64, text: &mut Bytes) -> Result<(), NoMemory>
        requires { 0 < clock }
        ensures { OnOk result (text.new ≡ text.old ++ cond some (44 ∷ []) [] ++ self.now ++ 58 ∷ decimal clock) }
    {
        if clock != self.clock {
            return push_clock(some, self.label.as_slice(), clock, text);
        }
        let kept = self.text.as_slice();
        if some {
            text.extend(kept)
        } else {
            text.extend(&kept[1..])
        }
    }

    // How long the clock's text is behind a comma, where that is known without making it. That of 0 is none.
    pub fn len_of(&self, clock: u64) -> Option<usize>
        ensures { IfSome result (λ len. len ≡ length (part self.now clock)) }
    {
        if clock == 0 {
            Some(0)
        } else if clock == self.clock {
            Some(self.text.len())
        } else {
            None
        }
    }

    // Adds the clock's text behind a comma, or nothing for 0.
    pub fn push_part(&self, clock: u64, text: &mut Bytes) -> Result<(), NoMemory>
        ensures { OnOk result (text.new ≡ text.old ++ part self.now clock) }
    {
        if clock == 0 {
            Ok(())
        } else {
            self.push(true, clock, text)
        }
    }

    // Keeps the clock's text in place of what was kept.
    pub fn keep(&mut self, clock: u64) -> Result<(), NoMemory>
        ensures { self.new ≡ self.old }
    {
        if clock == self.clock {
            return Ok(());
        }
        self.clock = 0;
        self.text.truncate(0);
        push_clock(true, self.label.as_slice(), clock, &mut self.text)?;
        self.clock = clock;
        Ok(())
    }
}
