// The fields of messages by themselves, as a kept file and an ask have them.
ghost use Rattle.pr_wire.specs.Spelling.{eight, four, list_text, name_text, span_text, stamp_text, vector_text};
ghost use Rattle.std.specs.Prelude.{◌≡◌, ◌++◌, OnErr, OnOk};

use crate::pieces::Pieces;
use crate::writing::{Chunk, Left, put_eight, put_name, put_stamp, put_vector};
use pr_inval::Bytes;
use pr_names::Name;
use pr_sets::NameSet;
use pr_stamps::{NoMemory, Stamp};
use pr_vectors::Vector;

/// Adds a number in 4 bytes, the highest first, in constant time. A refusal leaves the bytes.
#[tactic(auto, unfolding(crate::specs::Spelling::four))]
pub fn append_four(number: u32, out: &mut Bytes) -> Result<(), NoMemory>
    ensures ok { OnOk result (out.new ≡ out.old ++ four number) }
    ensures err { OnErr result (out.new ≡ out.old) }
{
    out.extend(&number.to_be_bytes())
}

/// Adds a number in 8 bytes, the highest first, in constant time. A refusal leaves the bytes.
#[tactic(auto, unfolding(crate::specs::Spelling::eight))]
pub fn append_eight(number: u64, out: &mut Bytes) -> Result<(), NoMemory>
    ensures ok { OnOk result (out.new ≡ out.old ++ eight number) }
    ensures err { OnErr result (out.new ≡ out.old) }
{
    out.extend(&number.to_be_bytes())
}

/// Adds a name (docs/WIRE.md), in time linear in it. A refusal leaves the bytes.
pub fn append_name(name: &Name, out: &mut Bytes) -> Result<(), NoMemory>
    ensures ok { OnOk result (out.new ≡ out.old ++ name_text name.now) }
    ensures err { OnErr result (out.new ≡ out.old) }
{
    let mut chunk = Chunk::new();
    put_name(&mut chunk, name);
    out.extend(chunk.as_slice())
}

/// Adds a stamp (docs/WIRE.md), in constant time. A refusal leaves the bytes.
pub fn append_stamp(stamp: &Stamp, out: &mut Bytes) -> Result<(), NoMemory>
    ensures ok { OnOk result (out.new ≡ out.old ++ stamp_text stamp.now) }
    ensures err { OnErr result (out.new ≡ out.old) }
{
    let mut chunk = Chunk::new();
    put_stamp(&mut chunk, stamp);
    out.extend(chunk.as_slice())
}

/// Adds a vector (docs/WIRE.md), in constant time. A refusal leaves the bytes.
pub fn append_vector(vector: &Vector, out: &mut Bytes) -> Result<(), NoMemory>
    ensures ok { OnOk result (out.new ≡ out.old ++ vector_text vector.now) }
    ensures err { OnErr result (out.new ≡ out.old) }
{
    let mut chunk = Chunk::new();
    put_vector(&mut chunk, vector);
    out.extend(chunk.as_slice())
}

/// Adds a set of names as a target (docs/WIRE.md), in time linear in its intervals. A refusal leaves the bytes.
#[tactic(auto, unfolding(crate::specs::Spelling::list_text))]
pub fn append_set(set: &NameSet, out: &mut Bytes) -> Result<(), NoMemory>
    ensures ok { OnOk result (out.new ≡ out.old ++ list_text span_text set.now) }
    ensures err { OnErr result (out.new ≡ out.old) }
{
    let mut chunk = Chunk::new();
    put_eight(&mut chunk, set.count() as u64);
    Pieces::of(chunk, Left::Target(set.parts())).append_to(out)
}
