// The cell: its value, and the steps of its callers.
ghost use Rattle.std.specs.Prelude.{◌≡◌, ◌≤◌};

use crate::pass::Pass;
use crate::refused::Refused;
use crate::steps::{
    AdvanceServing, BookTurn, DrawTicket, JoinSeats, LoadAfterJoin, LoadBeforeSplit, LookAtServing,
    SplitSeat,
};
use crate::storied::Storied;
use crate::tickets::Tickets;
use crate::turn::Turn;
use crate::view::View;
use atomic_table::Table;
use std::alloc::Global;
use std::snapshot::Snapshot;
use std::sync::Wait;

/// The word that is drawn from: how many tickets were drawn.
const TICKET: usize = 0;

/// The word of the ticket that is served.
const SERVING: usize = 1;

/// The word that counts the booked turns.
const BOOK: usize = 2;

/// A value under a ticket lock. The value lies in a slot of its table.
#[derive(Drop)]
pub struct Cell<T: Storied> {
    pub(crate) table: Table<Option<T>, View<T::Entry>, Snapshot<T>, Tickets<T>, Global>,
    pub(crate) callers: u32,
    ghost words: { table.shared.table_id.words ≡ 3 },
    ghost slots: { table.shared.table_id.slots ≡ 1 },
    ghost few: { callers ≤ 65 },
}

impl<T: Storied> Cell<T> {
    ghost use Rattle.std.specs.Prelude.{ℕ, ◌+◌, ◌^◌, ◌<◌, [], ◌∷◌, ◌++◌, List, Contains, All, IfOk, IfErr};
    ghost use Rattle.pr_cell.specs.Passes.{seen, since, held, mine, Begins, Grows, KeepsMine, AddsOwn, HoldsAll, opening_of, IsPassOf, IsTurnOf, IsFirst};

    /// A cell with this value, and the pass of number 0, from which up to `callers` - 1 others
    /// can be split: 64 jobs of a phase, and the phase itself. Two blocks of memory, constant
    /// time.
    pub fn new(alloc: Global, value: T, callers: u32) -> Result<(Cell<T>, Pass<T>), Refused<T>>
        requires callers { (1 ≤ callers) × (callers ≤ 65) }
        ensures cell { IfOk result (λ c. (c.0.callers ≡ callers) × (opening_of T.entries c.0 ≡ T.entries value)) }
        ensures pass { IfOk result (λ c. IsPassOf T.entries c.0 c.1 × IsFirst (T.entries value) c.1) }
        ensures err { IfErr result (λ r. r.value ≡ value) }
    {
        let key = Snapshot::of(&value);
        let mut slots = Vec::new(alloc);
        if let Err(failed) = slots.push(Some(value)) {
            slots.destroy_empty();
            let Some(value) = failed.value else {
                unreachable!()
            };
            return Err(Refused { value });
        }
        match Table::new(alloc, &[0, 0, 0], slots, &key) {
            Ok((table, seat)) => {
                let pass = Pass {
                    seat,
                    number: 0,
                    turns: 0,
                    issued: 1,
                };
                Ok((Cell { table, callers }, pass))
            }
            Err(refused) => {
                let mut slots = refused.slots;
                let Some(Some(value)) = slots.pop() else {
                    unreachable!()
                };
                slots.destroy_empty();
                Err(Refused { value })
            }
        }
    }

    /// Draws a ticket, and parks until it is served. The value that comes with the turn then has
    /// all that the pass has seen, and perhaps more, of other callers.
    pub fn take<R: Wait>(&self, rt: &R, pass: Pass<T>) -> Turn<T>
        requires pass { IsPassOf T.entries self.now pass }
        requires room { pass.turns < 2 ^ 40 }
        ensures turn { IsTurnOf T.entries self.now result × (result.number ≡ pass.number) × (result.turns ≡ pass.turns) }
        ensures kept { (held result.seat ≡ held pass.seat) × (result.issued ≡ pass.issued) }
        ensures shown { T.entries result.value ≡ seen result.seat }
        ensures grown { Grows T.number pass.seat result.seat }
        ensures mine { KeepsMine T.number pass.seat result.seat }
    {
        let Pass {
            mut seat,
            number,
            turns,
            issued,
        } = pass;
        let shared = &self.table.shared;
        let ticket = shared.fetch_add::<DrawTicket>(&mut seat, TICKET, 1);
        for _ in rt.forever() {
            let served = shared.load::<LookAtServing<T>>(&mut seat, SERVING);
            if served == ticket {
                let Some(value) = shared.exchange(&mut seat, 0, None) else {
                    unreachable!()
                };
                return Turn {
                    value,
                    seat,
                    number,
                    turns,
                    issued,
                };
            }
            shared.park(rt, SERVING, (served & 0xffff_ffff) as u32);
        }
        unreachable!()
    }

    /// Puts the value back, which shares the entries that the turn added, and serves the next
    /// ticket. Constant time, and a wake of those that wait.
    pub fn put(&self, turn: Turn<T>) -> Pass<T>
        requires turn { IsTurnOf T.entries self.now turn }
        requires value { AddsOwn T.entries T.number turn }
        ensures pass { IsPassOf T.entries self.now result × (result.number ≡ turn.number) × (result.turns ≡ turn.turns + 1) }
        ensures kept { (held result.seat ≡ held turn.seat) × (result.issued ≡ turn.issued) }
        ensures seen { seen result.seat ≡ T.entries turn.value }
        ensures added { (new : List T.Entry) → T.entries turn.value ≡ seen turn.seat ++ new → since result.seat ≡ since turn.seat ++ new }
    {
        let Turn {
            value,
            mut seat,
            number,
            turns,
            issued,
        } = turn;
        let shared = &self.table.shared;
        match shared.exchange(&mut seat, 0, Some(value)) {
            None => {}
            Some(_) => unreachable!(),
        }
        shared.fetch_add::<BookTurn<T>>(&mut seat, BOOK, 1);
        shared.fetch_add::<AdvanceServing>(&mut seat, SERVING, 1);
        shared.wake_all(SERVING);
        Pass {
            seat,
            number,
            turns: turns + 1,
            issued,
        }
    }

    /// A pass of the next number, which has seen what the given one has. Only the pass of number
    /// 0 can be split, while fewer than `callers` numbers were made. Constant time.
    pub fn split(&self, pass: &mut Pass<T>) -> Pass<T>
        requires pass { IsPassOf T.entries self.now pass.old }
        requires room { (pass.old.number ≡ 0) × (pass.old.issued < self.now.callers) }
        ensures pass { IsPassOf T.entries self.now pass.new × (pass.new.number ≡ 0) × (pass.new.turns ≡ pass.old.turns) }
        ensures kept { (held pass.new.seat ≡ held pass.old.seat) × (pass.new.issued ≡ pass.old.issued + 1) }
        ensures same { seen pass.new.seat ≡ seen pass.old.seat }
        ensures new { IsPassOf T.entries self.now result × (result.turns ≡ 0) × (result.issued ≡ 0) }
        ensures number { (result.number ≡ pass.old.issued) × (held result.seat ≡ result.number ∷ []) }
        ensures given { (seen result.seat ≡ seen pass.old.seat) × (mine T.number result.seat result.number ≡ []) }
    {
        self.table
            .shared
            .load::<LoadBeforeSplit<T>>(&mut pass.seat, TICKET);
        let seat = self.table.shared.split_seat::<SplitSeat>(&mut pass.seat);
        pass.issued += 1;
        Pass {
            seat,
            number: pass.issued - 1,
            turns: 0,
            issued: 0,
        }
    }

    /// One pass in place of two, which has seen what both have and holds the numbers of both.
    /// Constant time.
    pub fn join_pass(&self, into: Pass<T>, from: Pass<T>) -> Pass<T>
        requires into { IsPassOf T.entries self.now into }
        requires from { IsPassOf T.entries self.now from }
        ensures pass { IsPassOf T.entries self.now result × (result.number ≡ into.number) × (result.turns ≡ into.turns) }
        ensures held { (held result.seat ≡ held into.seat ++ held from.seat) × (result.issued ≡ into.issued + from.issued) }
        ensures seen { Begins (seen into.seat) (seen result.seat) × Begins (seen from.seat) (seen result.seat) }
        ensures mine { KeepsMine T.number into.seat result.seat × KeepsMine T.number from.seat result.seat }
    {
        let Pass {
            mut seat,
            number,
            turns,
            issued,
        } = into;
        let shared = &self.table.shared;
        shared.join_seat::<JoinSeats>(&mut seat, from.seat);
        shared.load::<LoadAfterJoin<T>>(&mut seat, TICKET);
        Pass {
            seat,
            number,
            turns,
            issued: issued + from.issued,
        }
    }

    /// The value, once every other pass was joined into this one. Constant time.
    pub fn close(self, pass: Pass<T>) -> T
        requires pass { IsPassOf T.entries self pass }
        requires all { HoldsAll pass }
        ensures seen { T.entries result ≡ seen pass.seat }
        ensures numbers { All (λ e. Contains (held pass.seat) (T.number e)) (since pass.seat) }
    {
        let Cell { table, callers: _ } = self;
        let mut closed = table.close_with(pass.seat);
        let Some(value) = closed.take(0) else {
            unreachable!()
        };
        closed.free();
        value
    }
}
