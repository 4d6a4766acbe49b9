// Why bytes are no script.

use thiserror::Error;

/// The first line that breaks a rule, with the least of the twelve rules that it breaks (docs/SCRIPT.md lists them), or
/// want of memory. Lines count from 1; a phase that is not ended is a fault one past the last line.
#[derive(Clone, Copy, Debug, PartialEq, Eq, Error)]
pub enum ScriptFault {
    #[error("line {line} breaks rule {why}")]
    Bad { line: u64, why: u8 },
    #[error("no memory")]
    NoMemory,
}
