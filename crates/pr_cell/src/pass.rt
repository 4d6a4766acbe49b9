// What a caller holds between its turns.
ghost use Rattle.std.specs.Prelude.{◌≡◌};

use crate::storied::Storied;
use crate::view::View;
use atomic_table::Seat;

/// What one caller has seen of the cell's list, and the numbers that it holds.
///
/// A pass that is dropped keeps its numbers, so the cell can no longer be closed.
#[derive(Drop)]
pub struct Pass<T: Storied> {
    pub(crate) seat: Seat<Option<T>, View<T::Entry>>,
    pub(crate) number: u32,
    pub(crate) turns: u64,
    pub(crate) issued: u32,
}

impl<T: Storied> Pass<T> {
    /// The number that its entries have: 0 for the first pass, then in the order of the splits.
    /// Constant time.
    pub fn number(&self) -> u32
        ensures { result ≡ self.now.number }
    {
        self.number
    }

    /// How many turns it has had. Constant time.
    pub fn turns(&self) -> u64
        ensures { result ≡ self.now.turns }
    {
        self.turns
    }
}
