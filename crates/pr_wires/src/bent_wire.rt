// A wire that goes wrong as it is told.
ghost use Rattle.pr_ports.specs.Faults.{HasRisen};
ghost use Rattle.pr_wires.specs.Bends.{AnswersPut, AnswersTake, after_put, after_take, bent_state, bytes_for, called, failed, fails, fails_next, flips, left, new_bent, put_in, repeats, taken_off};
ghost use Rattle.pr_wires.specs.Calls.{HasPut, HasTaken};
ghost use Rattle.pr_wires.specs.Counters.{one_more};
ghost use Rattle.std.specs.List.{list_any};
ghost use Rattle.std.specs.Prelude.{◌≡◌, ◌≤◌, ◌<◌, ◌+◌, ◌++◌, ◌∷◌, [], ◌↔◌, if◌then◌else◌, IfOk, IsErr, IsTrue, MatchResult, OnErr, bit_xor, false, length, take};

use crate::behind::forget;
use crate::causes::Causes;
use crate::{Bend, Wire};
use arrayvec::ArrayVec;
use pr_ports::Failed;
use std::marker::Model;

// Room for 4,096 bytes under way, and for one more of each of 16 bends.
const ROOM: usize = 4112;

/// A wire in memory with at most 16 bends. Without one it never fails, never ends and gives the bytes that were put.
/// No call takes memory; a take moves all bytes that are still to come.
#[derive(Drop)]
pub struct BentWire {
    bends: ArrayVec<Bend, 16>,
    calls: u64,
    put: u64,
    taken: u64,
    under: usize,
    coming: ArrayVec<u8, ROOM>,
    causes: Causes,
}

impl Model for BentWire {
    ghost use Rattle.std.specs.Prelude.{◌≤◌, ◌+◌, length};
    ghost use Rattle.pr_wires.specs.Bends.{Bent, extra};

    ghost Value = { Bent };

    ghost view = { λ w. record { bends = w.bends.items; calls = w.calls; put = w.put; taken = w.taken; under = w.under; coming = w.coming.items; faults = w.causes.faults; ends = w.causes.ends } };

    ghost invariant = { λ w. (w.under ≤ length w.coming.items) × (length w.coming.items ≤ w.under + extra w.put w.bends.items) };
}

impl BentWire {
    pub(crate) fn new(bends: ArrayVec<Bend, 16>) -> BentWire
        ensures { result ≡ new_bent bends.items }
    {
        BentWire {
            bends,
            calls: 0,
            put: 0,
            taken: 0,
            under: 0,
            coming: ArrayVec::new(),
            causes: Causes::none(),
        }
    }

    // Counts a call, which fails where a bend says so.
    fn call(&mut self) -> Result<(), Failed>
        ensures fails { IsErr result ↔ IsTrue (fails_next self.old) }
        ensures after { MatchResult result (λ u. self.new ≡ called self.old) (λ e. self.new ≡ failed self.old) }
        ensures risen { OnErr result ((self.old.faults ≤ self.new.faults) × HasRisen self.old.faults self.new.faults) }
    {
        self.calls = self.calls.saturating_add(1);
        if self.fails() {
            return Err(self.causes.fail());
        }
        Ok(())
    }

    // Whether the call that was counted last fails.
    fn fails(&self) -> bool
        ensures { result ≡ list_any (fails self.now.calls) self.now.bends }
    {
        let number = self.calls;
        self.bends.as_slice().iter().any(|bend| bend.fails(number))
    }

    // How many of so many bytes come before the wire ends.
    fn left(&self, len: usize) -> usize
        ensures value { result ≡ left self.now.taken self.now.bends len }
        ensures within { result ≤ len }
    {
        let mut left = len;
        for bend in self.bends.as_slice() {
            left = bend.left(self.taken, left);
        }
        left
    }

    // Whether the byte that is put next is changed.
    fn flips(&self) -> bool
        ensures { result ≡ list_any (flips self.now.put) self.now.bends }
    {
        let number = self.put;
        self.bends.as_slice().iter().any(|bend| bend.flips(number))
    }

    // Whether the byte that is put next is given twice.
    fn repeats(&self) -> bool
        ensures value { result ≡ list_any (repeats self.now.put) self.now.bends }
        ensures few { length self.now.bends ≤ 16 }
    {
        let number = self.put;
        self.bends
            .as_slice()
            .iter()
            .any(|bend| bend.repeats(number))
    }

    // Puts one byte in.
    fn put_byte(&mut self, byte: u8)
        requires { self.old.under < 4096 }
        ensures { self.new ≡ record self.old { put = one_more self.old.put; under = self.old.under + 1; coming = self.old.coming ++ bytes_for self.old.bends self.old.put byte } }
    {
        let given = flipped(byte, self.flips());
        let again = self.repeats();
        push_given(&mut self.coming, given, again);
        self.put = self.put.saturating_add(1);
        self.under += 1;
    }

    // Puts bytes in.
    fn put_in(&mut self, bytes: &[u8])
        requires { self.old.under + length bytes.now ≤ 4096 }
        ensures { self.new ≡ put_in self.old bytes.now }
    {
        let _in_range = self.put;
        for byte in bytes {
            self.put_byte(*byte);
        }
    }

    // Fills a buffer with the bytes that come next.
    fn take_off(&mut self, buf: &mut [u8])
        requires { length buf.old ≤ self.old.under }
        ensures bytes { buf.new ≡ take (length buf.old) self.old.coming }
        ensures after { self.new ≡ taken_off self.old (length buf.old) }
    {
        let len = buf.len();
        buf.copy_from_slice(&self.coming.as_slice()[..len]);
        forget(&mut self.coming, len);
        self.taken = self.taken.saturating_add(len as u64);
        self.under -= len;
    }
}

impl Wire for BentWire {
    ghost state = { bent_state };

    fn put(&mut self, piece: &[u8]) -> Result<usize, Failed>
        requires { self.old.under + length piece.now ≤ 4096 }
        ensures put { HasPut (bent_state self.old) (bent_state self.new) piece.now result }
        ensures answer { AnswersPut self.old (length piece.now) result }
        ensures after { self.new ≡ after_put self.old piece.now result }
    {
        self.call()?;
        let len = if self.left(piece.len()) == 0 {
            0
        } else {
            piece.len()
        };
        self.put_in(&piece[..len]);
        self.causes.note(len, piece.len());
        Ok(len)
    }

    fn take(&mut self, buf: &mut [u8]) -> Result<usize, Failed>
        requires { length buf.old ≤ self.old.under }
        ensures taken { HasTaken (bent_state self.old) (bent_state self.new) (length buf.old) buf.new result }
        ensures answer { AnswersTake self.old (length buf.old) result }
        ensures after { self.new ≡ after_take self.old (length buf.old) result }
        ensures bytes { IfOk result (λ n. take n buf.new ≡ take n self.old.coming) }
    {
        self.call()?;
        let len = self.left(buf.len());
        self.take_off(&mut buf[..len]);
        self.causes.note(len, buf.len());
        Ok(len)
    }
}

// A byte, with its lowest bit changed where that is asked for.
fn flipped(byte: u8, flips: bool) -> u8
    ensures { result ≡ (if flips then bit_xor byte 1 else byte) }
{
    if flips { byte ^ 1 } else { byte }
}

// Puts a byte behind others, once or twice.
fn push_given(coming: &mut ArrayVec<u8, ROOM>, byte: u8, again: bool)
    requires { length coming.old.items + (if again then 2 else 1) ≤ 4112 }
    ensures { coming.new.items ≡ coming.old.items ++ (if again then byte ∷ byte ∷ [] else byte ∷ []) }
{
    coming.push(byte);
    if again {
        coming.push(byte);
    }
}
