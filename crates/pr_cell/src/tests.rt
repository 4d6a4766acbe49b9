ghost use Rattle.std.specs.Prelude.{◌≡◌, ℕ, ◌+◌, ◌^◌, ◌<◌, ◌++◌, List, All, length};
ghost use Rattle.pr_cell.specs.Passes.{seen, held, IsPassOf};

use crate::{Cell, Pass, Storied};
use std::sync::Wait;
use std::test::Fail;
use std::thread;

/// Each entry is a caller's number and a letter.
#[derive(Drop)]
struct Listed {
    items: Vec<(u32, u8)>,
}

impl Storied for Listed {
    type Entry = (u32, u8);

    ghost entries = { λ l. l.items.items };

    ghost number = { λ e. e.0 };
}

impl Listed {
    // Where there is no memory, nothing is added.
    fn add(&mut self, number: u32, letter: u8)
        ensures { (new : List _) × (self.new.items.items ≡ self.old.items.items ++ new) × All (λ e. e.0 ≡ number) new }
    {
        let _ = self.items.push((number, letter));
    }

    // Whether the last entry is of this number.
    fn ends_with(&self, number: u32) -> bool {
        match self.items.last() {
            Some((who, _)) => *who == number,
            None => false,
        }
    }
}

// One turn, which adds an entry. Gives the pass, and how many entries the turn began with.
fn add<R: Wait>(
    rt: &R,
    cell: &Cell<Listed>,
    pass: Pass<Listed>,
    letter: u8,
) -> (Pass<Listed>, usize)
    requires pass { IsPassOf (λ l. l.items.items) cell.now pass }
    requires room { pass.turns < 2 ^ 40 }
    ensures pass { IsPassOf (λ l. l.items.items) cell.now result.0 × (result.0.number ≡ pass.number) × (result.0.turns ≡ pass.turns + 1) }
    ensures kept { (held result.0.seat ≡ held pass.seat) × (result.0.issued ≡ pass.issued) }
{
    let number = pass.number();
    let mut turn = cell.take(rt, pass);
    let shown = turn.value().items.len();
    turn.value().add(number, letter);
    (cell.put(turn), shown)
}

#[test]
fn a_cell_gives_back_what_it_was_opened_with(rt: HostRuntime) -> Result<(), Fail> {
    let items = vec![in rt.alloc(); (0, b'o')]?;
    let Ok((cell, pass)) = Cell::new(rt.alloc(), Listed { items }, 1) else {
        panic!(rt; "there is memory")
    };
    assert!(rt; pass.number() == 0 && pass.turns() == 0);
    let back = cell.close(pass);
    assert!(rt; back.items.as_slice() == [(0u32, b'o')].as_slice());
    Ok(())
}

#[test]
fn two_callers_see_all_entries(rt: HostRuntime) -> Result<(), Fail> {
    let items = Vec::new(rt.alloc());
    let Ok((cell, mut one)) = Cell::new(rt.alloc(), Listed { items }, 2) else {
        panic!(rt; "there is memory")
    };
    let two = cell.split(&mut one);
    assert!(rt; one.number() == 0 && two.number() == 1);
    let (one, shown) = add(&rt, &cell, one, b'a');
    assert!(rt; shown == 0);
    let (two, shown) = add(&rt, &cell, two, b'b');
    assert!(rt; shown == 1);
    let (one, shown) = add(&rt, &cell, one, b'c');
    assert!(rt; shown == 2);
    let (two, shown) = add(&rt, &cell, two, b'd');
    assert!(rt; shown == 3);
    assert!(rt; one.turns() == 2 && two.turns() == 2);
    let one = cell.join_pass(one, two);
    let all = cell.close(one);
    assert!(rt; all.items.as_slice() == [(0u32, b'a'), (1, b'b'), (0, b'c'), (1, b'd')].as_slice());
    Ok(())
}

// A turn for each letter of the alphabet.
fn add_alphabet<R: Wait>(rt: &R, cell: &Cell<Listed>, pass: Pass<Listed>) -> Pass<Listed>
    requires pass { IsPassOf (λ l. l.items.items) cell.now pass }
    requires room { pass.turns ≡ 0 }
    ensures pass { IsPassOf (λ l. l.items.items) cell.now result }
    ensures kept { (held result.seat ≡ held pass.seat) × (result.issued ≡ pass.issued) }
{
    let mut pass = pass;
    for letter in 97..123u8 {
        let (next, _) = add(rt, cell, pass, letter);
        pass = next;
    }
    pass
}

#[test]
fn two_threads_each_add_an_alphabet(rt: HostRuntime) -> Result<(), Fail> {
    let items = Vec::new(rt.alloc());
    let Ok((cell, mut one)) = Cell::new(rt.alloc(), Listed { items }, 2) else {
        panic!(rt; "there is memory")
    };
    let two = cell.split(&mut one);
    let (one, two) = thread::join(
        &rt,
        || add_alphabet(&rt, &cell, one),
        || add_alphabet(&rt, &cell, two),
    );
    assert!(rt; one.turns() == 26 && two.turns() == 26);
    let one = cell.join_pass(one, two);
    let all = cell.close(one);
    assert!(rt; all.items.len() == 52);
    for number in 0..2 {
        let mut next = b'a';
        for (who, letter) in &all.items {
            if *who == number {
                assert!(rt; *letter == next && next < 255);
                next += 1;
            }
        }
        assert!(rt; next == 123);
    }
    Ok(())
}

// One turn, which adds an entry behind one of another number, or at first. Gives the pass, and whether it added one.
fn answer<R: Wait>(rt: &R, cell: &Cell<Listed>, pass: Pass<Listed>) -> (Pass<Listed>, bool)
    requires pass { IsPassOf (λ l. l.items.items) cell.now pass }
    requires room { pass.turns < 2 ^ 40 }
    ensures pass { IsPassOf (λ l. l.items.items) cell.now result.0 × (result.0.number ≡ pass.number) × (result.0.turns ≡ pass.turns + 1) }
    ensures kept { (held result.0.seat ≡ held pass.seat) × (result.0.issued ≡ pass.issued) }
{
    let number = pass.number();
    let mut turn = cell.take(rt, pass);
    if turn.value().ends_with(number) {
        return (cell.put(turn), false);
    }
    turn.value().add(number, b'a');
    (cell.put(turn), true)
}

// Answers the other caller 26 times, and waits for it each time.
fn answer_all<R: Wait>(rt: &R, cell: &Cell<Listed>, pass: Pass<Listed>) -> Pass<Listed>
    requires pass { IsPassOf (λ l. l.items.items) cell.now pass }
    requires room { pass.turns ≡ 0 }
    ensures pass { IsPassOf (λ l. l.items.items) cell.now result }
    ensures kept { (held result.seat ≡ held pass.seat) × (result.issued ≡ pass.issued) }
{
    let mut pass = pass;
    let mut added = 0u8;
    for _ in 0..1_000_000_000u32 {
        if added >= 26 {
            return pass;
        }
        let (next, has_added) = answer(rt, cell, pass);
        pass = next;
        if has_added {
            added += 1;
        }
    }
    pass
}

// A caller that is not woken waits for ever, and so does the other.
#[test]
fn two_threads_wait_for_each_other(rt: HostRuntime) -> Result<(), Fail> {
    let items = Vec::new(rt.alloc());
    let Ok((cell, mut one)) = Cell::new(rt.alloc(), Listed { items }, 2) else {
        panic!(rt; "there is memory")
    };
    let two = cell.split(&mut one);
    let (one, two) = thread::join(
        &rt,
        || answer_all(&rt, &cell, one),
        || answer_all(&rt, &cell, two),
    );
    let one = cell.join_pass(one, two);
    let all = cell.close(one);
    assert!(rt; all.items.len() == 52);
    let mut last = 2;
    for (who, _) in &all.items {
        assert!(rt; *who != last);
        last = *who;
    }
    Ok(())
}
