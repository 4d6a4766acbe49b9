// The nodes of a script, made again of their journals.
ghost use Rattle.pr_keep.specs.Entries.{HasMessage};
ghost use Rattle.pr_keep.specs.Keeping.{Keeps};
ghost use Rattle.pr_keep.specs.Memory.{IsImage, state_of};
ghost use Rattle.pr_node.specs.Calls.{AddsAlone, IsStateEvent};
ghost use Rattle.pr_node.specs.Stored.{means};
ghost use Rattle.pr_ports.specs.Faults.{HasRisen};
ghost use Rattle.pr_script.specs.Good.{AreGoodDecls};
ghost use Rattle.pr_story.specs.History.{NodeEntry};
ghost use Rattle.pr_story.specs.declared.entry.Entry.{Entry};
ghost use Rattle.pr_text.specs.Numbers.{nodes_of};
ghost use Rattle.pr_text.specs.Transcripts.{plan_of};
ghost use Rattle.pr_top.specs.Kept.{placed};
ghost use Rattle.pr_top.specs.Resuming.{AreJournals, CanResume, IsJournalOf, TellsStates};
ghost use Rattle.pr_top.specs.Served.{node_after};
ghost use Rattle.std.specs.Prelude.{◌≡◌, ◌<◌, ◌≤◌, ◌∷◌, ◌++◌, [], ℕ, IfOk, List, OnOk, reverse};

use crate::nodes::sets_at;
use crate::running::tell_line;
use crate::stepping::Halt;
use pr_inval::NodeFault;
use pr_keep::{Keep, MemoryDisk};
use pr_node::Node;
use pr_ports::Sink;
use pr_script::Decls;
use pr_sim::copied_sets;
use pr_stamps::{NoMemory, Seq};
use pr_story::{Entry, Journal};
use std::alloc::Global;

// The number of the one caller, as in a run in one thread.
const CALLER: u32 = 0;

/// Makes each node again of its journal, in the order of their numbers, and lets it tell its state, whose entry is kept
/// before its line is written.
pub fn tell_states<K: Sink>(
    alloc: Global,
    decls: &Decls,
    journals: Vec<Journal>,
    keep: &mut Keep<MemoryDisk>,
    out: &mut K,
) -> Result<(), Halt>
    requires good { AreGoodDecls decls.now.list }
    requires held { (h : List NodeEntry) × CanResume decls.now.list h × AreJournals decls.now.list h journals.items × Keeps state_of (λ m. IsImage m.changes) keep.old (placed (reverse h)) }
    ensures told { (h : List NodeEntry) → CanResume decls.now.list h → AreJournals decls.now.list h journals.items → Keeps state_of (λ m. IsImage m.changes) keep.old (placed (reverse h)) → TellsStates decls.now.list h keep.new (HasRisen (K.faults out.old) (K.faults out.new)) (K.text out.old) (K.text out.new) result }
    ensures rises { K.faults out.old ≤ K.faults out.new }
{
    let mut text = Seq::new(alloc);
    let mut number = 0;
    for journal in journals {
        let node = stated(alloc, decls, number, journal)?;
        let state = last(&node);
        keep_state(keep, number, state)?;
        tell_line(decls, number, &state.event, &mut text, out)?;
        number += 1;
    }
    Ok(())
}

// The node of this number and journal, after it told its state.
fn stated(alloc: Global, decls: &Decls, number: u32, entries: Journal) -> Result<Node, NoMemory>
    requires good { AreGoodDecls decls.now.list }
    requires known { number < nodes_of decls.now.list }
    requires held { (h : List NodeEntry) × CanResume decls.now.list h × IsJournalOf h number entries.items }
    ensures { (h : List NodeEntry) → CanResume decls.now.list h → IsJournalOf h number entries.items → IfOk result (λ node. AddsAlone (node_after (plan_of decls.now.list) h number) (means node) 0 (λ e. IsStateEvent e.event)) }
{
    let sets = copied_sets(alloc, sets_at(decls.as_slice(), number))?;
    let mut node = Node::rebuild(alloc, number, sets, entries)?;
    match node.state(CALLER) {
        Ok(()) => Ok(node),
        Err(NodeFault::NoMemory) => Err(NoMemory),
        Err(NodeFault::Worn { .. }) => unreachable!(),
    }
}

// The entry that the node made last.
fn last(node: &Node) -> &Entry
    requires { (e : Entry) × (j : List Entry) × ((means node.now).journal ≡ e ∷ j) }
    ensures { (e : Entry) (j : List Entry) → (means node.now).journal ≡ e ∷ j → result.now ≡ e }
{
    match node.journal().last() {
        Some(entry) => entry,
        None => unreachable!(),
    }
}

// Keeps an entry more on a disk that does not stop, so memory alone can be wanted.
fn keep_state(keep: &mut Keep<MemoryDisk>, node: u32, entry: &Entry) -> Result<(), NoMemory>
    requires node { node < 32 }
    requires message { HasMessage entry.now.event }
    requires kept { (es : List (ℕ × Entry)) × Keeps state_of (λ m. IsImage m.changes) keep.old es }
    ensures { (es : List (ℕ × Entry)) → Keeps state_of (λ m. IsImage m.changes) keep.old es → OnOk result (Keeps state_of (λ m. IsImage m.changes) keep.new (es ++ (node, entry.now) ∷ [])) }
{
    match keep.append(node, entry) {
        Ok(()) => Ok(()),
        Err(_) => Err(NoMemory),
    }
}
