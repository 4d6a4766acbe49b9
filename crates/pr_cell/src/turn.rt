// The value, while one caller has it.
ghost use Rattle.std.specs.Prelude.{◌≡◌};
ghost use Rattle.std.specs.Borrow.{sem};

use crate::storied::Storied;
use crate::view::View;
use atomic_table::Seat;

/// The value, while one caller has its turn. It has no `Drop`: a turn has to be put back.
pub struct Turn<T: Storied> {
    pub(crate) value: T,
    pub(crate) seat: Seat<Option<T>, View<T::Entry>>,
    pub(crate) number: u32,
    pub(crate) turns: u64,
    pub(crate) issued: u32,
}

impl<T: Storied> Turn<T> {
    ghost use Rattle.pr_cell.specs.Lending.{LendsValue};

    /// The value, to be read and changed. Constant time.
    pub fn value(&mut self) -> &mut T
        ensures* writes_back { sem 𝓛 (LendsValue T.row T.Entry.row self.entry result) }
        ensures value { result.now ≡ self.old.value }
    {
        &mut self.value
    }
}
