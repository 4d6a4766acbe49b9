// The stores of a node.

use pr_bodies::Bodies;
use pr_gaps::Gaps;
use pr_log::Log;
use pr_marks::Marks;

/// What a node keeps beside its journal, so that no call walks the journal: the log, the told points, the bodies and
/// the marks.
#[derive(Drop)]
pub struct Stores {
    pub log: Log,
    pub gaps: Gaps,
    pub bodies: Bodies,
    pub marks: Marks,
}
