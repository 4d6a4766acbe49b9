// Laws of a node's journal.
ghost use Rattle.pr_node.specs.Rebuilding.{LawfulIsToldAgain};

/// Of the journal of whatever a node did, it can be made again: entries that were lawful, where each message that was
/// taken is one of the grammar of docs/WIRE.md.
pub fn lawful_journals_can_be_rebuilt()
    ensures { LawfulIsToldAgain }
{}
