// The events of a node.
ghost use Rattle.pr_text.specs.Lines.{sentence};
ghost use Rattle.pr_text.specs.Texts.{more, vector_text};
ghost use Rattle.pr_story.specs.declared.event.Event.TheVariants as events;
ghost use Rattle.std.specs.Prelude.{◌≡◌, ◌++◌, OnOk, map};

use crate::answer::push_found;
use crate::field::{push_at, push_name, push_word};
use crate::label::push_about;
use crate::stock::Stock;
use crate::vector::push_vector;
use pr_names::Name;
use pr_script::{Bytes, Decls, Kind};
use pr_stamps::NoMemory;
use pr_story::Found;
use pr_vectors::{PackedVector, Vector};

/// The node's log was truncated.
pub fn push_cut(
    stock: &Stock,
    node: u32,
    at: &PackedVector,
    text: &mut Bytes,
) -> Result<(), NoMemory>
    ensures { OnOk result (text.new ≡ text.old ++ sentence stock.now.list node (events.Cut at.now)) }
{
    push_about(b"cut ", stock.decls(), Kind::Node, node, text)?;
    push_at(b" at ", stock, at, text)
}

/// The node dropped its bodies of the name.
pub fn push_dropped(decls: &Decls, node: u32, name: &Name, text: &mut Bytes) -> Result<(), NoMemory>
    ensures { OnOk result (text.new ≡ text.old ++ sentence decls.now.list node (events.Dropped name.now)) }
{
    push_about(b"drop ", decls, Kind::Node, node, text)?;
    push_name(name, text)
}

/// The node's conflicts of the name.
pub fn push_conflicts(
    decls: &Decls,
    node: u32,
    name: &Name,
    found: &Found,
    text: &mut Bytes,
) -> Result<(), NoMemory>
    ensures { OnOk result (text.new ≡ text.old ++ sentence decls.now.list node (events.Conflicts name.now found.now)) }
{
    push_about(b"conflicts ", decls, Kind::Node, node, text)?;
    push_name(name, text)?;
    push_found(decls, found, text)
}

/// The node's vectors.
pub fn push_state(
    stock: &Stock,
    node: u32,
    at: &PackedVector,
    cut: &PackedVector,
    floor: &PackedVector,
    precise: &[Vector],
    text: &mut Bytes,
) -> Result<(), NoMemory>
    ensures { OnOk result (text.new ≡ text.old ++ sentence stock.now.list node (events.State at.now cut.now floor.now precise.now)) }
{
    push_about(b"state ", stock.decls(), Kind::Node, node, text)?;
    push_at(b" at ", stock, at, text)?;
    push_at(b" cut ", stock, cut, text)?;
    push_at(b" floor ", stock, floor, text)?;
    push_word(b"precise", text)?;
    push_vectors(stock.decls(), precise, text)
}

fn push_vectors(decls: &Decls, vectors: &[Vector], text: &mut Bytes) -> Result<(), NoMemory>
    ensures { OnOk result (text.new ≡ text.old ++ more 32 (map (vector_text decls.now.list) vectors.now)) }
{
    for vector in vectors {
        text.push(b' ')?;
        push_vector(decls, vector, text)?;
    }
    Ok(())
}
