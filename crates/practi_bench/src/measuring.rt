// What each kind of call does.

use crate::ask::Ask;
use crate::calls::calls;
use crate::failed::Failed;
use crate::rounds::rounds;
use crate::streams::stream_calls;
use crate::work::Work;
use std::alloc::Global;

/// Does what is asked for, and says how many entries were made.
pub fn entries(alloc: Global, ask: &Ask) -> Result<usize, Failed> {
    match ask.work {
        Work::Rounds(round) => rounds(alloc, round, ask),
        Work::Calls(call) => calls(alloc, call, ask),
        Work::Streams(call) => stream_calls(alloc, call, ask),
    }
}
