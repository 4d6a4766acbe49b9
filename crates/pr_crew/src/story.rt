// What the list of a node's cell has.
use pr_sets::NameSet;
use pr_stamps::Seq;
use pr_story::Entry;

/// What was told at a node's cell. No value of this type is ever made: it stands in contracts alone.
pub enum Story {
    /// The node's number, its sets, and its journal as the phase began.
    Opened {
        number: u32,
        sets: Seq<NameSet>,
        journal: Seq<Entry>,
    },
    /// An entry that was made since then.
    Made(Entry),
}
