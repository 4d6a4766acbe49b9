// Bytes behind their count, and writes.
ghost use Rattle.pr_keep.specs.Entries.{IsAnyWrite, IsCounted, IsStampOrNone};
ghost use Rattle.pr_keep.specs.Spelling.{counted_text};
ghost use Rattle.pr_vectors.specs.Vector.{IsVector};
ghost use Rattle.pr_wire.specs.Spelling.{gone_text, prev_text, vector_text, write_text};
ghost use Rattle.pr_wire.specs.declared.format.Format.TheVariants.{Two};
ghost use Rattle.std.specs.Prelude.{◌≡◌, ◌++◌, OnOk};

use pr_inval::{Bytes, WriteRec};
use pr_stamps::{NoMemory, Stamp};
use pr_vectors::{PackedVector, Vector};
use pr_wire::{append_eight, append_name, append_stamp, append_vector};

/// Bytes behind their count.
#[tactic(auto, unfolding(crate::specs::Spelling::counted_text))]
pub fn append_counted(bytes: &Bytes, out: &mut Bytes) -> Result<(), NoMemory>
    ensures text { OnOk result (out.new ≡ out.old ++ counted_text bytes.now) }
    ensures range { IsCounted bytes.now }
{
    append_eight(bytes.len() as u64, out)?;
    out.extend(bytes.as_slice())
}

/// A vector, whose clocks are in range.
pub fn append_clocks(vector: &Vector, out: &mut Bytes) -> Result<(), NoMemory>
    ensures text { OnOk result (out.new ≡ out.old ++ vector_text vector.now) }
    ensures range { IsVector vector.now }
{
    let _ = vector.at(0);
    append_vector(vector, out)
}

/// A packed vector, whose clocks are in range.
pub fn append_packed(vector: &PackedVector, out: &mut Bytes) -> Result<(), NoMemory>
    ensures text { OnOk result (out.new ≡ out.old ++ vector_text vector.now) }
    ensures range { IsVector vector.now }
{
    append_vector(&vector.get(), out)
}

// A stamp, or none.
#[tactic(auto, unfolding(pr_wire::specs::Spelling::prev_text))]
fn append_prev(prev: &Option<Stamp>, out: &mut Bytes) -> Result<(), NoMemory>
    ensures text { OnOk result (out.new ≡ out.old ++ prev_text prev.now) }
    ensures range { IsStampOrNone prev.now }
{
    match prev {
        None => out.push(0),
        Some(stamp) => {
            let _ = stamp.clock();
            out.push(1)?;
            append_stamp(stamp, out)
        }
    }
}

// Whether a write is a delete.
#[tactic(auto, unfolding(pr_wire::specs::Spelling::gone_text))]
fn append_gone(gone: bool, out: &mut Bytes) -> Result<(), NoMemory>
    ensures { OnOk result (out.new ≡ out.old ++ gone_text Two gone) }
{
    out.push(u8::from(gone))
}

/// A write.
#[tactic(auto, unfolding(pr_wire::specs::Spelling::write_text))]
pub fn append_write(write: &WriteRec, out: &mut Bytes) -> Result<(), NoMemory>
    ensures text { OnOk result (out.new ≡ out.old ++ write_text Two write.now) }
    ensures range { OnOk result (IsAnyWrite write.now) }
{
    let _ = write.name.bytes();
    let _ = write.stamp.clock();
    append_name(&write.name, out)?;
    append_stamp(&write.stamp, out)?;
    append_prev(&write.prev, out)?;
    append_gone(write.gone, out)
}
