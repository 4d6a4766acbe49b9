// A write, as its invalidation tells it.

use pr_names::Name;
use pr_stamps::Stamp;

/// A write to a name: its accept stamp, the newest stamp of the name that its node knew before it, and whether it
/// is a delete, which has no body.
#[derive(Clone, Copy, Debug, PartialEq, Eq)]
pub struct WriteRec {
    pub name: Name,
    pub gone: bool,
    pub stamp: Stamp,
    pub prev: Option<Stamp>,
}
