// Names and sets of names.

use crate::failed::Failed;
use pr_names::{Interval, Name};
use pr_sets::NameSet;
use std::alloc::Global;

/// The name of the last seven digits of this number, under this letter.
pub fn name(letter: u8, number: u32) -> Result<Name, Failed> {
    let mut bytes = *b"?/0000000";
    bytes[0] = letter;
    let mut left = number;
    for place in 0..7 {
        bytes[8 - place] = b'0' + (left % 10) as u8;
        left /= 10;
    }
    Ok(Name::read(&bytes)?)
}

/// The set that is written so.
pub fn set(alloc: Global, text: &[u8]) -> Result<NameSet, Failed> {
    Ok(NameSet::read(alloc, text, 1)?)
}

/// The set of one name.
pub fn set_of(alloc: Global, name: &Name) -> Result<NameSet, Failed> {
    let interval = Interval::new(*name, name.after()).ok_or(Failed)?;
    Ok(NameSet::of(alloc, interval)?)
}
