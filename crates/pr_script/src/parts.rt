// The parts that lines have in common.
ghost use Rattle.pr_script.specs.Fields.{Gives};
ghost use Rattle.pr_script.specs.Parts.{home_at, label_at, name_at, turns_at, written_at};
ghost use Rattle.std.specs.Prelude.{◌≡◌};

use crate::Bytes;
use crate::fields::{end_field, field, name};
use crate::kind::Kind;
use crate::known::Known;
use crate::number::number_within;
use crate::refusal::Refusal;
use crate::table::is_label;
use crate::text::end_text;
use pr_names::Name;
use std::alloc::Global;

/// The number of a label that stands alone.
#[tactic(auto, unfolding(crate::specs::Parts::label_at))]
pub fn label_alone(kind: Kind, known: &Known, rest: &[u8]) -> Result<u32, Refusal>
    ensures { Gives (λ x. x) result (label_at kind known.now rest.now) }
{
    let label = end_field(rest)?;
    if !is_label(label) {
        return Err(Refusal::Why(4));
    }
    let Some(number) = known.decls.number(kind, label) else {
        return Err(Refusal::Why(9));
    };
    Ok(number)
}

/// A label's number, and a name.
#[tactic(auto, unfolding(crate::specs::Parts::name_at))]
pub fn label_and_name(kind: Kind, known: &Known, rest: &[u8]) -> Result<(u32, Name), Refusal>
    ensures { Gives (λ x. x) result (name_at kind known.now rest.now) }
{
    let (label, rest) = field(rest)?;
    let written = end_field(rest)?;
    if !is_label(label) {
        return Err(Refusal::Why(4));
    }
    let Some(name) = name(written) else {
        return Err(Refusal::Why(5));
    };
    let Some(number) = known.decls.number(kind, label) else {
        return Err(Refusal::Why(9));
    };
    Ok((number, name))
}

/// A stream's number, and a number from 1 to the most.
#[tactic(auto, unfolding(crate::specs::Parts::turns_at))]
pub fn stream_and_number(most: u64, known: &Known, rest: &[u8]) -> Result<(u32, u64), Refusal>
    ensures { Gives (λ x. x) result (turns_at most known.now rest.now) }
{
    let (label, rest) = field(rest)?;
    let written = end_field(rest)?;
    if !is_label(label) {
        return Err(Refusal::Why(4));
    }
    let Some(number) = number_within(1, most, written) else {
        return Err(Refusal::Why(7));
    };
    let Some(stream) = known.decls.number(Kind::Stream, label) else {
        return Err(Refusal::Why(9));
    };
    Ok((stream, number))
}

/// The numbers of a client and a node.
#[tactic(auto, unfolding(crate::specs::Parts::home_at))]
pub fn client_and_node(known: &Known, rest: &[u8]) -> Result<(u32, u32), Refusal>
    ensures { Gives (λ x. x) result (home_at known.now rest.now) }
{
    let (client, rest) = field(rest)?;
    let node = end_field(rest)?;
    if !is_label(client) || !is_label(node) {
        return Err(Refusal::Why(4));
    }
    let Some(client) = known.decls.number(Kind::Client, client) else {
        return Err(Refusal::Why(9));
    };
    let Some(node) = known.decls.number(Kind::Node, node) else {
        return Err(Refusal::Why(9));
    };
    Ok((client, node))
}

/// What a write has: a client's number, a name and a text.
#[derive(Drop)]
pub struct Written {
    pub client: u32,
    pub name: Name,
    pub text: Bytes,
}

#[tactic(auto, unfolding(crate::specs::Parts::written_at))]
pub fn client_name_text(alloc: Global, known: &Known, rest: &[u8]) -> Result<Written, Refusal>
    ensures { Gives (λ x. x) result (written_at known.now rest.now) }
{
    let (label, rest) = field(rest)?;
    let (written, rest) = field(rest)?;
    let text = end_text(alloc, rest)?;
    if !is_label(label) {
        return Err(Refusal::Why(4));
    }
    let Some(name) = name(written) else {
        return Err(Refusal::Why(5));
    };
    let Some(client) = known.decls.number(Kind::Client, label) else {
        return Err(Refusal::Why(9));
    };
    Ok(Written { client, name, text })
}
