// Lists, causes, replies and what was found.
ghost use Rattle.pr_keep.specs.Entries.{IsCounted, IsCountedList, IsFound, IsPair, IsReply};
ghost use Rattle.pr_keep.specs.Spelling.{cause_byte, cause_text, counted_text, found_text, pair_text, reply_text};
ghost use Rattle.pr_vectors.specs.Vector.{IsVector};
ghost use Rattle.pr_stamps.specs.Point.{IsStamp};
ghost use Rattle.pr_wire.specs.Spelling.{list_text, stamp_text, vector_text};
ghost use Rattle.std.specs.Prelude.{◌≡◌, ◌∷◌, ◌++◌, OnOk};

use crate::spelling::fields::{append_clocks, append_counted};
use pr_inval::Bytes;
use pr_stamps::{NoMemory, Stamp};
use pr_story::{Cause, Found, Reply};
use pr_vectors::Vector;
use pr_wire::{append_eight, append_stamp};

/// Vectors behind their count.
#[tactic(auto, unfolding(pr_wire::specs::Spelling::list_text))]
pub fn append_vectors(vectors: &[Vector], out: &mut Bytes) -> Result<(), NoMemory>
    ensures text { OnOk result (out.new ≡ out.old ++ list_text vector_text vectors.now) }
    ensures range { OnOk result (IsCountedList IsVector vectors.now) }
{
    append_eight(vectors.len() as u64, out)?;
    for vector in vectors {
        append_clocks(vector, out)?;
    }
    Ok(())
}

// The stamps of a pair.
#[tactic(auto, unfolding(crate::specs::Spelling::pair_text))]
fn append_pair(pair: &(Stamp, Stamp), out: &mut Bytes) -> Result<(), NoMemory>
    ensures text { OnOk result (out.new ≡ out.old ++ pair_text pair.now) }
    ensures range { IsPair pair.now }
{
    let _ = pair.0.clock();
    let _ = pair.1.clock();
    append_stamp(&pair.0, out)?;
    append_stamp(&pair.1, out)
}

// Pairs behind their count.
#[tactic(auto, unfolding(pr_wire::specs::Spelling::list_text))]
fn append_pairs(pairs: &[(Stamp, Stamp)], out: &mut Bytes) -> Result<(), NoMemory>
    ensures text { OnOk result (out.new ≡ out.old ++ list_text pair_text pairs.now) }
    ensures range { OnOk result (IsCountedList IsPair pairs.now) }
{
    append_eight(pairs.len() as u64, out)?;
    for pair in pairs {
        append_pair(pair, out)?;
    }
    Ok(())
}

/// Why a flow ended.
#[tactic(auto, unfolding(crate::specs::Spelling::cause_text))]
pub fn append_cause(cause: Cause, out: &mut Bytes) -> Result<(), NoMemory>
    ensures { OnOk result (out.new ≡ out.old ++ cause_text cause) }
{
    out.push(cause_byte(cause))
}

fn cause_byte(cause: Cause) -> u8
    ensures { result ≡ cause_byte cause }
{
    match cause {
        Cause::Failed => 1,
        Cause::Ended => 2,
        Cause::Gap => 3,
    }
}

// A byte that says which answer it is, and the stamp.
fn append_stamped(kind: u8, stamp: &Stamp, out: &mut Bytes) -> Result<(), NoMemory>
    ensures text { OnOk result (out.new ≡ out.old ++ kind ∷ stamp_text stamp.now) }
    ensures range { IsStamp stamp.now }
{
    let _ = stamp.clock();
    out.push(kind)?;
    append_stamp(stamp, out)
}

/// The answer to a read.
#[tactic(auto, unfolding(crate::specs::Spelling::reply_text, crate::specs::Spelling::reply_fields))]
pub fn append_reply(reply: &Reply, out: &mut Bytes) -> Result<(), NoMemory>
    ensures text { OnOk result (out.new ≡ out.old ++ reply_text reply.now) }
    ensures range { OnOk result (IsReply reply.now) }
{
    match reply {
        Reply::Never => out.push(1),
        Reply::Value { stamp, bytes } => append_value(stamp, bytes, out),
        Reply::Imprecise { untold } => append_stamped(3, untold, out),
        Reply::Body { stamp } => append_stamped(4, stamp, out),
        Reply::Gone { stamp } => append_stamped(5, stamp, out),
    }
}

// A stamp and what it wrote.
fn append_value(stamp: &Stamp, bytes: &Bytes, out: &mut Bytes) -> Result<(), NoMemory>
    ensures text { OnOk result (out.new ≡ out.old ++ 2 ∷ (stamp_text stamp.now ++ counted_text bytes.now)) }
    ensures range { OnOk result (IsStamp stamp.now × IsCounted bytes.now) }
{
    append_stamped(2, stamp, out)?;
    append_counted(bytes, out)
}

/// What was found of conflicts.
#[tactic(auto, unfolding(crate::specs::Spelling::found_text, crate::specs::Spelling::found_fields))]
pub fn append_found(found: &Found, out: &mut Bytes) -> Result<(), NoMemory>
    ensures text { OnOk result (out.new ≡ out.old ++ found_text found.now) }
    ensures range { OnOk result (IsFound found.now) }
{
    match found {
        Found::Pairs(pairs) => {
            out.push(1)?;
            append_pairs(pairs.as_slice(), out)
        }
        Found::Imprecise { untold } => append_stamped(2, untold, out),
    }
}
