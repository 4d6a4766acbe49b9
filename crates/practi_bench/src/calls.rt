// Calls of one node.

use crate::ask::Ask;
use crate::failed::Failed;
use crate::known::{Knowing, Known};
use crate::work::Call;
use std::alloc::Global;
use std::mem;

/// Makes so many calls of a node that knows the names, and says how many entries were made with those that told it. Its
/// memory is not given back, since that is no call's work.
pub fn calls(alloc: Global, call: Call, ask: &Ask) -> Result<usize, Failed> {
    let mut known = Known::new(alloc, knowing(call), ask)?;
    let count = repeat(&mut known, call, ask)?;
    mem::forget(known);
    Ok(count)
}

// What the node is told beforehand.
fn knowing(call: Call) -> Knowing {
    match call {
        Call::Write | Call::Accept | Call::Cut => Knowing::Writes,
        Call::Read => Knowing::Bodies,
        Call::Intervals => Knowing::Hints,
    }
}

fn repeat(known: &mut Known, call: Call, ask: &Ask) -> Result<usize, Failed> {
    for number in 0..ask.size {
        make(known, call, number % ask.names)?;
    }
    Ok(known.entries())
}

fn make(known: &mut Known, call: Call, name_number: u32) -> Result<(), Failed> {
    match call {
        Call::Write => known.write(name_number),
        Call::Accept => known.tell(Knowing::Writes),
        Call::Read => known.read(name_number),
        Call::Cut => known.cut(name_number),
        Call::Intervals => known.tell(Knowing::Hints),
    }
}
