//! Journals that outlive a stop: a file of entries on a disk (docs/KEPT.md).
#![tactic(auto)]

mod change;
mod disk;
mod fault;
mod keep;
mod law;
mod lay;
mod memory_disk;
mod reading;
mod records;
mod spelling;
#[cfg(test)]
mod tests;

pub use disk::{Disk, DiskFault};
pub use fault::{KeepFault, KeepRefused};
pub use keep::Keep;
pub use law::{
    damaged_files_stand_for_nothing, files_stand_for_one_list, kept_entries_are_read_again,
    read_entries_are_spelled,
};
pub use memory_disk::MemoryDisk;
