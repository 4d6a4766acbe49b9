// Where jobs come before each of their lines.
use std::sync::Wait;

/// Something that each job of a phase calls before each of its script lines, from its own thread.
pub trait Gate: Sync {
    /// A job has come to this line. The call may wait for other jobs.
    fn reached<R: Wait>(&self, rt: &R, line: u64);
}
