// Messages over bytes.
ghost use Rattle.pr_inval.specs.Messages.{IsMessage};

use crate::failed::Failed;
use pr_inval::{Bytes, Msg};
use pr_wire::{Feed, encode};
use std::alloc::Global;

/// Bytes that messages are written to, and the feed that reads them.
#[derive(Drop)]
pub struct Coding {
    bytes: Bytes,
    pub feed: Feed,
}

impl Coding {
    pub fn new(alloc: Global) -> Coding {
        Coding {
            bytes: Bytes::new(alloc),
            feed: Feed::new(alloc, u64::MAX),
        }
    }

    /// Gives the feed the bytes of a message.
    pub fn put(&mut self, msg: &Msg) -> Result<(), Failed>
        requires { IsMessage msg.now }
    {
        self.bytes.truncate(0);
        encode(msg, &mut self.bytes)?;
        self.feed.push(self.bytes.as_slice())?;
        Ok(())
    }
}
