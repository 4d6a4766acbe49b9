// What a disk held where it stopped.
ghost use Rattle.pr_keep.specs.Files.{StandsFor};
ghost use Rattle.pr_keep.specs.Keeping.{Keeps};
ghost use Rattle.pr_keep.specs.Memory.{IsImage, state_of};
ghost use Rattle.pr_keep.specs.declared.fault.KeepFault.TheVariants as faults;
ghost use Rattle.pr_ports.specs.Faults.{HasRisen};
ghost use Rattle.pr_stamps.specs.Kept.{Kept};
ghost use Rattle.pr_story.specs.History.{NodeEntry};
ghost use Rattle.pr_story.specs.declared.entry.Entry.{Entry};
ghost use Rattle.pr_top.specs.Kept.{placed};
ghost use Rattle.pr_top.specs.Progress.{Writes, entry_lines};
ghost use Rattle.pr_top.specs.Resuming.{IsJournalOf, unplaced};
ghost use Rattle.std.specs.List.{AllByRecursion};
ghost use Rattle.std.specs.Prelude.{◌≡◌, ◌<◌, ◌≤◌, ◌∷◌, ◌++◌, [], ℕ, IfOk, List, OnOk, get_or, length, reverse};

use crate::running::tell_line;
use crate::stepping::Halt;
use pr_keep::{Keep, KeepFault, KeepRefused, MemoryDisk};
use pr_ports::Sink;
use pr_script::Decls;
use pr_stamps::{NoMemory, Seq};
use pr_story::{Entry, Journal};
use std::alloc::Global;

/// The file as of the disk's last sync, on a disk that does not stop, and its entries, in time linear in them.
pub fn reopened(
    alloc: Global,
    disk: MemoryDisk,
) -> Result<(Keep<MemoryDisk>, Seq<(u32, Entry)>), NoMemory>
    requires { (es : List (ℕ × Entry)) × StandsFor (state_of disk).synced es }
    ensures { (es : List (ℕ × Entry)) → StandsFor (state_of disk).synced es → IfOk result (λ opened. (opened.1 ≡ es) × Keeps state_of (λ m. IsImage m.changes) opened.0 es) }
{
    match Keep::open(alloc, disk.image()) {
        Ok(opened) => Ok(opened),
        Err(KeepRefused { disk, fault }) => {
            // Asked for its promise alone: a disk without a stop never comes to it.
            let _ = disk.good();
            Err(wanted(fault))
        }
    }
}

// Nothing but memory was wanted.
fn wanted(fault: KeepFault) -> NoMemory
    requires { fault ≡ faults.NoMemory }
{
    match fault {
        KeepFault::NoMemory => NoMemory,
        KeepFault::Failed | KeepFault::Damaged { .. } => unreachable!(),
    }
}

/// Writes the lines of these entries.
pub fn tell_placed<K: Sink>(
    alloc: Global,
    decls: &Decls,
    entries: &[(u32, Entry)],
    out: &mut K,
) -> Result<(), Halt>
    ensures told { Writes (entry_lines decls.now.list (unplaced entries.now)) (HasRisen (K.faults out.old) (K.faults out.new)) (K.text out.old) (K.text out.new) result }
    ensures rises { K.faults out.old ≤ K.faults out.new }
{
    let mut text = Seq::new(alloc);
    for (node, entry) in entries {
        tell_line(decls, *node, &entry.event, &mut text, out)?;
    }
    Ok(())
}

/// The journal of each of so many nodes, in time linear in the entries, of which none is copied.
pub fn journals_of(
    alloc: Global,
    nodes: u32,
    entries: Seq<(u32, Entry)>,
) -> Result<Vec<Journal>, NoMemory>
    requires { AllByRecursion (λ (e : ℕ × Entry). e.0 < nodes) entries }
    ensures many { IfOk result (λ journals. length journals.items ≡ nodes) }
    ensures each { (h : List NodeEntry) → entries ≡ placed (reverse h) → IfOk result (λ journals. (n : ℕ) (d : Kept Entry) → n < length journals.items → IsJournalOf h n (get_or journals.items n d).items) }
{
    let mut journals = new_journals(alloc, nodes)?;
    for (node, entry) in entries.into_vec() {
        add(&mut journals[node as usize], entry)?;
    }
    Ok(journals)
}

fn new_journals(alloc: Global, nodes: u32) -> Result<Vec<Journal>, NoMemory>
    ensures many { IfOk result (λ journals. length journals.items ≡ nodes) }
    ensures each { IfOk result (λ journals. (n : ℕ) (d : Kept Entry) → n < length journals.items → (get_or journals.items n d).items ≡ []) }
{
    let mut journals = Vec::new(alloc);
    for _ in 0..nodes {
        journals.push(Journal::new(alloc))?;
    }
    Ok(journals)
}

fn add(journal: &mut Journal, entry: Entry) -> Result<(), NoMemory>
    ensures { OnOk result (journal.new.items ≡ journal.old.items ++ entry ∷ []) }
{
    journal.reserve()?;
    journal.push(entry);
    Ok(())
}
