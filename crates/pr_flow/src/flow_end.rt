// How a flow ends.

use pr_inval::Bytes;
use pr_story::Cause;

/// All turns were made; the flow went down, as its destination's journal says; its stream is stale, so that a
/// checkpoint is wanted; or the wire gave other bytes than those that were put. Then `sent` is the encoding of the
/// message of this number, and `got` is what was taken for it, of which nothing was applied.
#[derive(Drop)]
pub enum FlowEnd {
    Done,
    Down(Cause),
    Stale,
    Lied {
        number: u64,
        sent: Bytes,
        got: Bytes,
    },
}
