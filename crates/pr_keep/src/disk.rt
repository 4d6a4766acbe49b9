// A disk, as a file that is kept sees it.
ghost use Rattle.pr_keep.specs.Disk.{Elapses, Follows, HasRead, HasSynced, HasWritten, IsTorn, NoneNew, Only, State};
ghost use Rattle.std.specs.Prelude.{◌≡◌, ◌≤◌, ℕ, List, length, OnOk};

use pr_stamps::NoMemory;
use std::alloc::AllocFailed;

/// Why a call of a disk did nothing that can be relied on: the disk failed, or memory was wanted.
#[derive(Clone, Copy, Debug, PartialEq, Eq)]
pub enum DiskFault {
    Failed,
    NoMemory,
}

impl From<NoMemory> for DiskFault {
    ghost use Rattle.pr_keep.specs.declared.disk.DiskFault.TheVariants as faults;

    ghost from_gives = { λ _ fault. fault ≡ faults.NoMemory };

    fn from(_fault: NoMemory) -> DiskFault {
        DiskFault::NoMemory
    }
}

impl<T: Drop> From<AllocFailed<T>> for DiskFault {
    ghost use Rattle.pr_keep.specs.declared.disk.DiskFault.TheVariants as faults;

    ghost from_gives = { λ _ fault. fault ≡ faults.NoMemory };

    fn from(_fault: AllocFailed<T>) -> DiskFault {
        DiskFault::NoMemory
    }
}

/// A disk that reads as a list of bytes. An image of it at some moment is what a stop then may leave: between two
/// syncs that answer Ok each range that was written, and what is past the length at the first of them, may hold any
/// bytes or be missing at the end.
pub trait Disk {
    /// What it reads as, what it read as after the last sync that answered Ok, and its counts.
    ghost state: { Self → State };

    /// What a stop at this moment may leave.
    ghost images: { Self → List ℕ → Type 0 };

    /// This moment, a number that never falls.
    ghost moment: { Self → ℕ };

    /// What a stop at some moment from that one on may have left, during a call or between two.
    ghost images_since: { Self → ℕ → List ℕ → Type 0 };

    /// Reads bytes from a place on into the front of the buffer, and answers their number. It gives 0 for a nonempty
    /// buffer only at the end.
    fn read(&mut self, at: u64, buf: &mut [u8]) -> Result<usize, DiskFault>
        ensures read { HasRead (state self.old) (state self.new) at buf.new result }
        ensures images { NoneNew (images self.old) (images self.new) }
        ensures time { Elapses (moment self.old) (moment self.new) (images_since self.old) (images_since self.new) (images self.new) };

    /// Writes a piece over what is at the place, and past the end.
    fn write(&mut self, at: u64, piece: &[u8]) -> Result<(), DiskFault>
        requires { at ≤ length (state self.old).reads }
        ensures written { HasWritten (state self.old) (state self.new) at piece.now result }
        ensures images { Follows (IsTorn at (length piece.now)) (images self.old) (images self.new) }
        ensures time { Elapses (moment self.old) (moment self.new) (images_since self.old) (images_since self.new) (images self.new) };

    /// After it answered Ok, a stop leaves what is read.
    fn sync(&mut self) -> Result<(), DiskFault>
        ensures synced { HasSynced (state self.old) (state self.new) result }
        ensures settled { OnOk result (Only (state self.old).reads (images self.new)) }
        ensures images { NoneNew (images self.old) (images self.new) }
        ensures time { Elapses (moment self.old) (moment self.new) (images_since self.old) (images_since self.new) (images self.new) };

    /// What it reads as is one of its images.
    ghost reads_count: { (disk : Self) → images disk (state disk).reads };

    /// This moment is one of those since an earlier one.
    ghost counts_now: { (disk : Self) (t : ℕ) (c : List ℕ) → t ≤ moment disk → images disk c → images_since disk t c };

    /// Since this moment there is no other.
    ghost only_now: { (disk : Self) (c : List ℕ) → images_since disk (moment disk) c → images disk c };
}
