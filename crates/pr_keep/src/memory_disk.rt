// A disk in memory, which stops where it is told to.
ghost use Rattle.pr_keep.specs.Disk.{IsFrom, counted};
ghost use Rattle.pr_keep.specs.Memory.{IsImage, IsWithin, WasImage, image_of, image_was, lasts_of, new_memory, only_image, reads_as_image, reads_of, state_of};
ghost use Rattle.std.specs.Prelude.{◌≡◌, ◌≢◌, ◌<◌, ◌^◌, ◌↔◌, length, IsTrue};

use crate::change::{Change, overwrite, undo_all};
use crate::{Disk, DiskFault};
use std::alloc::Global;
use std::marker::Model;

/// Keeps each piece that was written and what stood there before, so that what a stop may have left at any moment is
/// told by what the disk holds. It holds each byte written twice, and a note of constant size for each write and each
/// sync.
#[derive(Drop)]
pub struct MemoryDisk {
    alloc: Global,
    bytes: Vec<u8>,
    changes: Vec<Change>,
    stop: u64,
    good: u64,
    faults: u64,
}

impl Model for MemoryDisk {
    ghost use Rattle.std.specs.Prelude.{◌≤◌, reverse};
    ghost use Rattle.pr_keep.specs.Memory.{IsMade, Memory, lasts_of};

    ghost Value = { Memory };

    ghost view = { λ d. record { changes = reverse d.changes.items; stop = d.stop; good = d.good; faults = d.faults } };

    ghost invariant = { λ d. IsMade d.bytes.items (reverse d.changes.items) × (d.good ≤ lasts_of d.stop) };
}

impl MemoryDisk {
    /// An empty disk that answers so many calls and then fails each; `u64::MAX` is no stop. It takes no memory.
    pub fn new(alloc: Global, stop: u64) -> MemoryDisk
        ensures { result ≡ new_memory stop }
    {
        MemoryDisk {
            alloc,
            bytes: Vec::new(alloc),
            changes: Vec::new(alloc),
            stop,
            good: 0,
            faults: 0,
        }
    }

    /// The disk as of its last sync that answered Ok, without a stop, in time linear in what was written since.
    pub fn image(self) -> MemoryDisk
        ensures { result ≡ image_of self }
    {
        let MemoryDisk {
            alloc,
            mut bytes,
            mut changes,
            ..
        } = self;
        undo_all(&mut bytes, &mut changes);
        MemoryDisk {
            alloc,
            bytes,
            changes,
            stop: u64::MAX,
            good: 0,
            faults: 0,
        }
    }

    /// How many calls answered Ok: never more than it was told to answer.
    pub fn good(&self) -> u64
        ensures value { result ≡ self.now.good }
        ensures within { IsWithin self.now }
    {
        self.good
    }

    // Counts a call that answers, where the disk has not stopped.
    fn count_good(&mut self)
        requires { self.old.good ≢ lasts_of self.old.stop }
        ensures { self.new ≡ record self.old { good = counted self.old.good 1 } }
    {
        self.good = self.good.saturating_add(1);
    }

    // Counts a call that fails.
    fn count_fault(&mut self)
        ensures { self.new ≡ record self.old { faults = counted self.old.faults 1 } }
    {
        self.faults = self.faults.saturating_add(1);
    }

    // Whether each further call fails.
    fn has_stopped(&self) -> bool
        ensures faults { self.now.faults < 2 ^ 64 }
        ensures short { length (reads_of self.now.changes) < 2 ^ 64 }
        ensures counts { self.now.good < 2 ^ 64 }
        ensures stopped { IsTrue result ↔ (self.now.good ≡ lasts_of self.now.stop) }
    {
        let _ = self.bytes.len();
        let _faults = self.faults;
        let good = self.good;
        self.stop != u64::MAX && good == self.stop
    }
}

impl Disk for MemoryDisk {
    ghost state = { state_of };

    ghost images = { λ m. IsImage m.changes };

    ghost moment = { λ m. length m.changes };

    ghost images_since = { λ m. WasImage m.changes };

    ghost reads_count = { λ m. reads_as_image m.changes };

    ghost counts_now = { λ m t c le now. image_was m.changes t c now };

    ghost only_now = { λ m c was. only_image m.changes c was };

    fn read(&mut self, at: u64, buf: &mut [u8]) -> Result<usize, DiskFault> {
        if self.has_stopped() {
            self.count_fault();
            return Err(DiskFault::Failed);
        }
        self.count_good();
        Ok(give(&self.bytes, at as usize, buf))
    }

    fn write(&mut self, at: u64, piece: &[u8]) -> Result<(), DiskFault> {
        if self.has_stopped() {
            self.count_fault();
            return Err(DiskFault::Failed);
        }
        overwrite(
            self.alloc,
            &mut self.bytes,
            &mut self.changes,
            at as usize,
            piece,
        )?;
        self.count_good();
        Ok(())
    }

    fn sync(&mut self) -> Result<(), DiskFault> {
        if self.has_stopped() {
            self.count_fault();
            return Err(DiskFault::Failed);
        }
        self.changes.push(Change::Synced)?;
        self.count_good();
        Ok(())
    }
}

// Copies bytes from a place on into the front of the buffer, as many as there are and fit.
fn give(bytes: &[u8], at: usize, buf: &mut [u8]) -> usize
    ensures given { IsFrom bytes.now at buf.new result }
    ensures short { length bytes.now < 2 ^ 64 }
{
    if bytes.len() <= at {
        return 0;
    }
    let count = buf.len().min(bytes.len() - at);
    buf[..count].copy_from_slice(&bytes[at..at + count]);
    count
}
