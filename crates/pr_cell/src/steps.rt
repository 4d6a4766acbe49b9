// The kinds of atomic step, and what each tells the seat that makes it.
use crate::storied::Storied;
use crate::view::View;
use atomic_table::{Join, Play, Split};
use std::marker::PhantomData;

/// Draws a ticket: one addition to the ticket word.
pub(crate) struct DrawTicket;

impl<T: Storied> Play<Option<T>, View<T::Entry>> for DrawTicket {
    ghost use Rattle.pr_cell.specs.Steps.{drawn};

    ghost then = { drawn };
}

/// Looks at the ticket that is served: one load of the serving word, which takes the slot where
/// the ticket is the seat's own.
pub(crate) struct LookAtServing<T> {
    marker: PhantomData<T>,
}

impl<T: Storied> Play<Option<T>, View<T::Entry>> for LookAtServing<T> {
    ghost use Rattle.pr_cell.specs.Steps.{looked};

    ghost then = { looked T.entries T.number };
}

/// Books the turn: one addition to the book word, from which on the turn's entries are shared.
pub(crate) struct BookTurn<T> {
    marker: PhantomData<T>,
}

impl<T: Storied> Play<Option<T>, View<T::Entry>> for BookTurn<T> {
    ghost use Rattle.pr_cell.specs.Steps.{booked};

    ghost then = { booked T.entries };
}

/// Serves the next ticket: one addition to the serving word, which gives the slot back.
pub(crate) struct AdvanceServing;

impl<T: Storied> Play<Option<T>, View<T::Entry>> for AdvanceServing {
    ghost use Rattle.pr_cell.specs.Steps.{advanced};

    ghost then = { advanced };
}

/// One load of the ticket word before a split, which tells that what was seen is of made numbers.
pub(crate) struct LoadBeforeSplit<T> {
    marker: PhantomData<T>,
}

impl<T: Storied> Play<Option<T>, View<T::Entry>> for LoadBeforeSplit<T> {
    ghost use Rattle.pr_cell.specs.Steps.{loaded_before_split};

    ghost then = { loaded_before_split T.number };
}

/// One load of the ticket word after a join, which compares what the two seats had seen.
pub(crate) struct LoadAfterJoin<T> {
    marker: PhantomData<T>,
}

impl<T: Storied> Play<Option<T>, View<T::Entry>> for LoadAfterJoin<T> {
    ghost use Rattle.pr_cell.specs.Steps.{loaded_after_join};

    ghost then = { loaded_after_join T.number };
}

/// Splits a seat: the next number, for a new pass.
pub(crate) struct SplitSeat;

impl<E> Split<View<E>> for SplitSeat {
    ghost use Rattle.pr_cell.specs.Steps.{split_left, split_right};

    ghost left = { split_left };

    ghost right = { split_right };
}

/// Joins two seats: the numbers of both.
pub(crate) struct JoinSeats;

impl<E> Join<View<E>> for JoinSeats {
    ghost use Rattle.pr_cell.specs.Steps.{joined, spent};

    ghost both = { joined };

    ghost spent = { spent };
}
