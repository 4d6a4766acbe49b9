// A stream.

use crate::tests::building::set;
use pr_inval::Session;
use std::alloc::Global;

/// A stream between two nodes.
#[derive(Drop)]
pub struct Stream {
    pub source: u32,
    pub destination: u32,
    pub session: Session,
}

/// Its source, its destination, its names, and whether it sends bodies.
pub type Link<'a> = (u32, u32, &'a [u8], bool);

impl Stream {
    /// A stream that is not attached.
    pub fn new(alloc: Global, number: u32, link: &Link<'_>) -> Option<Stream> {
        let names = set(alloc, link.2)?;
        if names.is_empty() {
            return None;
        }
        Some(Stream {
            source: link.0,
            destination: link.1,
            session: Session::new(alloc, number, names, link.3),
        })
    }
}
