// The newest write of a name that is known.

use crate::Stamp;

/// A stamp, and whether its write deletes the object.
#[derive(Clone, Copy, Debug, PartialEq, Eq)]
pub struct Newest {
    pub stamp: Stamp,
    pub gone: bool,
}
