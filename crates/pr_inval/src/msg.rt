// A message on a stream.
ghost use Rattle.std.specs.Prelude.{◌≡◌, IfOk};

use crate::Kind;
use pr_stamps::NoMemory;
use std::alloc::Global;

/// A message: the time of the event that sent it, its stream, and its number among the stream's messages, from 1.
#[derive(Drop)]
pub struct Msg {
    pub time: u64,
    pub stream: u32,
    pub number: u64,
    pub kind: Kind,
}

impl Msg {
    /// A copy, in time linear in what the message holds. It takes memory for the vectors, the target, the rows with
    /// their marks, and the bytes.
    pub fn copy(&self, alloc: Global) -> Result<Msg, NoMemory>
        ensures { IfOk result (λ msg. msg ≡ self.now) }
    {
        let kind = self.kind.copy(alloc)?;
        Ok(Msg {
            time: self.time,
            stream: self.stream,
            number: self.number,
            kind,
        })
    }
}
