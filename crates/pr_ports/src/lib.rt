//! Where bytes come from and where they go, each with a count of its faults.
#![tactic(auto)]

mod copying;
mod memory_sink;
mod memory_source;
mod plain_source;
mod ports;
mod reader_source;
#[cfg(test)]
mod tests;
mod writer_sink;

pub use memory_sink::MemorySink;
pub use memory_source::MemorySource;
pub use plain_source::PlainSource;
pub use ports::{Failed, Sink, Source};
pub use reader_source::ReaderSource;
pub use writer_sink::WriterSink;
