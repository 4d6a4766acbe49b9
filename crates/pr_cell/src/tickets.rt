// The rule that holds between any two steps on a cell's table.
use crate::storied::Storied;
use crate::view::View;
use atomic_table::TableRule;
use std::marker::PhantomData;
use std::snapshot::Snapshot;

/// The rule of the tickets. The key is the opening value.
pub struct Tickets<T> {
    marker: PhantomData<T>,
}

impl<T: Storied> TableRule<Option<T>, View<T::Entry>, Snapshot<T>> for Tickets<T> {
    ghost use Rattle.pr_cell.specs.Rule.{IsKept, starting};

    ghost holds = { λ key. IsKept T.entries T.number (T.entries key.value) };

    ghost first = { λ key. starting (T.entries key.value) };
}
