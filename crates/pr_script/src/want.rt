// What a read is to answer.

use crate::Bytes;

/// The kind of answer that is expected of a read, and for a value its bytes, at most 1,024, whatever its stamp.
#[derive(Drop)]
pub enum Want {
    Value(Bytes),
    Never,
    Imprecise,
    Body,
    Gone,
    Behind,
}
