// Two jobs over a cell whose value refuses an entry.
ghost use Rattle.pr_cell.specs.Passes.{IsPassOf, held};
ghost use Rattle.std.specs.Prelude.{◌≡◌, ◌+◌, ◌<◌, ◌^◌, ◌++◌, All, List};

use pr_cell::{Cell, Pass, Storied};
use pr_stamps::NoMemory;
use std::alloc::Global;
use std::sync::Wait;
use std::test::Fail;
use std::thread;
use std::thread::Threads;

/// A list of so many entries at most, each a caller's number and a letter.
#[derive(Drop)]
struct Short {
    items: Vec<(u32, u8)>,
    most: usize,
}

impl Storied for Short {
    type Entry = (u32, u8);

    ghost entries = { λ l. l.items.items };

    ghost number = { λ e. e.0 };
}

impl Short {
    fn add(&mut self, number: u32, letter: u8) -> Result<(), NoMemory>
        ensures { (new : List _) × (self.new.items.items ≡ self.old.items.items ++ new) × All (λ e. e.0 ≡ number) new }
    {
        if self.items.len() >= self.most {
            return Err(NoMemory);
        }
        match self.items.push((number, letter)) {
            Ok(()) => Ok(()),
            Err(_) => Err(NoMemory),
        }
    }
}

// One turn, which adds an entry or is refused.
fn add<R: Wait>(
    rt: &R,
    cell: &Cell<Short>,
    pass: Pass<Short>,
    letter: u8,
) -> (Pass<Short>, Result<(), NoMemory>)
    requires pass { IsPassOf (λ l. l.items.items) cell.now pass }
    requires room { pass.turns < 2 ^ 40 }
    ensures pass { IsPassOf (λ l. l.items.items) cell.now result.0 × (result.0.number ≡ pass.number) × (result.0.turns ≡ pass.turns + 1) }
    ensures kept { (held result.0.seat ≡ held pass.seat) × (result.0.issued ≡ pass.issued) }
{
    let number = pass.number();
    let mut turn = cell.take(rt, pass);
    let added = turn.value().add(number, letter);
    (cell.put(turn), added)
}

// A job of two entries, which ends with the first one that is refused.
fn two_letters<R: Wait>(
    rt: &R,
    cell: &Cell<Short>,
    pass: Pass<Short>,
) -> (Pass<Short>, Result<(), NoMemory>)
    requires pass { IsPassOf (λ l. l.items.items) cell.now pass }
    requires room { pass.turns ≡ 0 }
    ensures pass { IsPassOf (λ l. l.items.items) cell.now result.0 }
    ensures kept { (held result.0.seat ≡ held pass.seat) × (result.0.issued ≡ pass.issued) }
{
    let (pass, first) = add(rt, cell, pass, b'a');
    match first {
        Ok(()) => add(rt, cell, pass, b'b'),
        Err(refused) => (pass, Err(refused)),
    }
}

// The letters of a caller, where they are the first ones of the alphabet.
fn count_of(items: &[(u32, u8)], number: u32) -> Option<u8> {
    let mut count = 0u8;
    for (who, letter) in items {
        if *who == number {
            if count == 255 || *letter != b'a'.saturating_add(count) {
                return None;
            }
            count += 1;
        }
    }
    Some(count)
}

// What two jobs leave of a list of so many entries at most, and whether both went their way.
fn left_by_two<R: Threads + Wait + Sync>(
    rt: &R,
    alloc: Global,
    most: usize,
) -> Result<(Short, bool), Fail> {
    let items = Vec::new(alloc);
    let Ok((cell, mut one)) = Cell::new(alloc, Short { items, most }, 2) else {
        return Err("no memory")?;
    };
    let two = cell.split(&mut one);
    let ((one, first), (two, second)) = thread::join(
        rt,
        || two_letters(rt, &cell, one),
        || two_letters(rt, &cell, two),
    );
    let one = cell.join_pass(one, two);
    let both = first.is_ok() && second.is_ok();
    Ok((cell.close(one), both))
}

#[test]
fn a_refusal_ends_its_job_alone(rt: HostRuntime) -> Result<(), Fail> {
    for most in 0..5 {
        let (list, both) = left_by_two(&rt, rt.alloc(), most)?;
        assert_eq!(rt; both, most == 4);
        assert_eq!(rt; list.items.len(), most);
        assert!(rt; count_of(&list.items, 0).is_some() && count_of(&list.items, 1).is_some());
    }
    Ok(())
}
