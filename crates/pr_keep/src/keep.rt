// A journal in a file.
ghost use Rattle.pr_keep.specs.Calls.{HasCause, HasCountedBelow, IsDamagedAt, IsNotDamaged, IsOpened, IsSettled, IsSettledAt, IsTornFrom, IsUnsettled, IsUntouched, StandsUpTo, fails, succeeds};
ghost use Rattle.pr_keep.specs.Disk.{LeavesOnly, counted};
ghost use Rattle.pr_keep.specs.Entries.{HasMessage, IsKeepable};
ghost use Rattle.pr_keep.specs.Files.{IsBroken, IsDamaged, StandsFor, StandsForEither, head};
ghost use Rattle.pr_keep.specs.Spelling.{counted_text, entry_text};
ghost use Rattle.pr_story.specs.declared.entry.Entry.{Entry};
ghost use Rattle.std.specs.Prelude.{◌≡◌, ◌≤◌, ◌<◌, ◌∷◌, ◌++◌, [], ℕ, List, IfErr, IfOk, OnErr, OnOk, length, take};

use crate::lay::lay;
use crate::records::{read_some, record_at};
use crate::spelling::append_entry;
use crate::{Disk, KeepFault, KeepRefused};
use pr_stamps::{NoMemory, Seq};
use pr_story::Entry;
use std::alloc::Global;

const HEAD: [u8; 8] = *b"PRACTIK1";

/// A file of entries with their nodes (docs/KEPT.md), of which a stop at any moment leaves all that were kept.
#[derive(Drop)]
pub struct Keep<D: Disk> {
    alloc: Global,
    disk: D,
    gate: u64,
}

impl<D: Disk> Keep<D> {
    ghost use Rattle.pr_keep.specs.Keeping.{Keeps, disk_of};

    /// Makes an empty file, by one write and one sync.
    pub fn format(alloc: Global, mut disk: D) -> Result<Keep<D>, KeepRefused<D>>
        requires { (D.state disk).reads ≡ [] }
        ensures ok { IfOk result (λ keep. Keeps D.state D.images keep []
            × ((D.state (disk_of keep)).good ≡ counted (D.state disk).good 2)) }
        ensures err { IfErr result (λ refused. IsNotDamaged refused.fault
            × HasCountedBelow 2 (D.state disk).good (D.state refused.disk).good) }
        ensures counts { IfOk result (λ keep. HasCause (D.state disk) (D.state (disk_of keep)) succeeds) }
        ensures cause { IfErr result (λ refused. HasCause (D.state disk) (D.state refused.disk) (fails refused.fault)) }
    {
        match write_synced(&mut disk, 0, b"PRACTIK1\0") {
            Ok(()) => Ok(Keep {
                alloc,
                disk,
                gate: 8,
            }),
            Err(fault) => Err(KeepRefused { disk, fault }),
        }
    }

    /// Opens a file, in time linear in its records, by a sync and then reads, with one record at most in memory besides
    /// the entries. Damaged says that it stands for no list of entries.
    pub fn open(alloc: Global, mut disk: D) -> Result<(Keep<D>, Seq<(u32, Entry)>), KeepRefused<D>>
        ensures ok { IfOk result (λ opened. Keeps D.state D.images opened.0 opened.1
            × IsOpened D.state D.images D.moment D.images_since disk (disk_of opened.0)) }
        ensures same { (es : List (ℕ × Entry)) → StandsFor (D.state disk).reads es
            → IfOk result (λ opened. opened.1 ≡ es) × IfErr result (λ refused. IsNotDamaged refused.fault) }
        ensures err { IfErr result (λ refused. IsDamagedAt (IsDamaged (D.state disk).reads) refused.fault
            × IsOpened D.state D.images D.moment D.images_since disk refused.disk) }
        ensures counts { IfOk result (λ opened. HasCause (D.state disk) (D.state (disk_of opened.0)) succeeds) }
        ensures cause { IfErr result (λ refused. HasCause (D.state disk) (D.state refused.disk) (fails refused.fault)) }
    {
        match read_all(alloc, &mut disk) {
            Ok((entries, gate)) => Ok((Keep { alloc, disk, gate }, entries)),
            Err(fault) => Err(KeepRefused { disk, fault }),
        }
    }

    /// Keeps one entry more, by a write and a sync behind the closed gate and a write and a sync of the gate, in time
    /// linear in the entry. After a refusal the file has to be opened again.
    pub fn append(&mut self, node: u32, entry: &Entry) -> Result<(), KeepFault>
        requires node { node < 32 }
        requires message { HasMessage entry.now.event }
        requires kept { (es : List (ℕ × Entry)) × Keeps D.state D.images self.old es }
        ensures ok { (es : List (ℕ × Entry)) → Keeps D.state D.images self.old es
            → OnOk result (Keeps D.state D.images self.new (es ++ (node, entry.now) ∷ [])) }
        ensures good { OnOk result ((D.state (disk_of self.new)).good ≡ counted (D.state (disk_of self.old)).good 4) }
        ensures err { (es : List (ℕ × Entry)) → Keeps D.state D.images self.old es
            → OnErr result (StandsFor (D.state (disk_of self.new)).synced es
            × HasCountedBelow 4 (D.state (disk_of self.old)).good (D.state (disk_of self.new)).good) }

        // A stop at any moment of the call leaves the entries from before it, with the new one or without.
        ensures moments { (es : List (ℕ × Entry)) → Keeps D.state D.images self.old es
            → LeavesOnly D.moment D.images_since (disk_of self.old) (disk_of self.new) (StandsForEither es (node, entry.now)) }
        ensures cause { HasCause (D.state (disk_of self.old)) (D.state (disk_of self.new)) result }
        ensures fault { IfErr result IsNotDamaged }
    {
        let record = record_of(self.alloc, node, entry)?;
        // No file is so long that its places want more than 64 bits.
        let Some(gate) = self.gate.checked_add(record.len() as u64) else {
            return Err(KeepFault::NoMemory);
        };
        write_synced(&mut self.disk, self.gate + 1, &record)?;
        write_synced(&mut self.disk, self.gate, &[1])?;
        self.gate = gate;
        Ok(())
    }

    /// The disk.
    pub fn close(self) -> D
        ensures { result ≡ disk_of self }
    {
        self.disk
    }
}

// The length of an entry's spelling, the spelling, and a closed gate.
#[tactic(auto, unfolding(crate::specs::Spelling::counted_text))]
fn record_of(alloc: Global, node: u32, entry: &Entry) -> Result<Vec<u8>, NoMemory>
    requires node { node < 32 }
    requires message { HasMessage entry.now.event }
    ensures text { IfOk result (λ bytes. bytes.items ≡ counted_text (entry_text (node, entry.now)) ++ 0 ∷ []) }
    ensures keepable { OnOk result (IsKeepable (node, entry.now)) }
{
    let mut text = Seq::new(alloc);
    text.extend(&[0; 8])?;
    append_entry(node, entry, &mut text)?;
    let mut bytes = text.into_vec();
    let len = (bytes.len() - 8) as u64;
    lay(&mut bytes, 0, &len.to_be_bytes());
    bytes.push(0)?;
    Ok(bytes)
}

// Writes a piece and then syncs.
fn write_synced<D: Disk>(disk: &mut D, at: u64, piece: &[u8]) -> Result<(), KeepFault>
    requires { at ≤ length (D.state disk.old).reads }
    ensures ok { OnOk result (IsSettled D.state D.images disk.old disk.new at piece.now) }
    ensures err { OnErr result (IsUnsettled D.state disk.old disk.new) }
    ensures moments { LeavesOnly D.moment D.images_since disk.old disk.new (IsTornFrom (D.images disk.old) at (length piece.now)) }
    ensures cause { HasCause (D.state disk.old) (D.state disk.new) result }
    ensures fault { IfErr result IsNotDamaged }
{
    disk.write(at, piece)?;
    Ok(disk.sync()?)
}

// All entries of the file, and the place of the closed gate behind them.
fn read_all<D: Disk>(alloc: Global, disk: &mut D) -> Result<(Seq<(u32, Entry)>, u64), KeepFault>
    ensures ok { IfOk result (λ all. StandsUpTo (D.state disk.old).reads all.0 all.1) }
    ensures settled { OnOk result (IsSettledAt D.state D.images disk.new) }
    ensures err { IfErr result (IsDamagedAt (IsDamaged (D.state disk.old).reads)) }
    ensures disk { IsOpened D.state D.images D.moment D.images_since disk.old disk.new }
    ensures cause { HasCause (D.state disk.old) (D.state disk.new) result }
{
    disk.sync()?;
    let head = read_some(alloc, disk, 0, 8)?;
    if head.as_slice() != HEAD.as_slice() {
        return Err(KeepFault::Damaged { at: 0 });
    }
    read_records(alloc, disk)
}

// The entries behind the head, and the place of the closed gate behind them.
fn read_records<D: Disk>(alloc: Global, disk: &mut D) -> Result<(Seq<(u32, Entry)>, u64), KeepFault>
    requires { take 8 (D.state disk.old).reads ≡ head }
    ensures ok { IfOk result (λ all. StandsUpTo (D.state disk.old).reads all.0 all.1) }
    ensures err { IfErr result (IsDamagedAt (IsBroken (D.state disk.old).reads)) }
    ensures disk { IsUntouched D.state D.images D.moment D.images_since disk.old disk.new }
    ensures cause { HasCause (D.state disk.old) (D.state disk.new) result }
{
    let mut entries = Seq::new(alloc);
    let mut at = 8;
    while let Some(record) = record_at(alloc, disk, at)? {
        entries.push(record.entry)?;
        at = record.next;
    }
    Ok((entries, at))
}
