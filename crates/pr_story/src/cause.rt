// Why a flow ended.

/// The wire failed, it ended, or the destination lacked a message.
#[derive(Clone, Copy, Debug, PartialEq, Eq)]
pub enum Cause {
    Failed,
    Ended,
    Gap,
}
