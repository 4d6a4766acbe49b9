// What a line is read as.
ghost use Rattle.pr_check.specs.Events.{at_node, client_told, message_told, node_told, stream_told, told_of};
ghost use Rattle.pr_check.specs.Fields.{Gives};
ghost use Rattle.pr_check.specs.Lines.{IsTellable, IsTellableAt};
ghost use Rattle.pr_script.specs.Labels.{AreLabels};
ghost use Rattle.pr_script.specs.declared.kind.Kind.TheVariants as kinds;
ghost use Rattle.pr_text.specs.Numbers.{Has};
ghost use Rattle.std.specs.Prelude.{◌≡◌, IfOk};

use crate::client::{answered, delete, moved, refused, write};
use crate::field::field_at;
use crate::node::{conflicts, cut, dropped, node_at, state};
use crate::refusal::Refusal;
use crate::stream::{accepted, attached, down, gapped, idle, missing, sent, stale};
use crate::told::Told;
use pr_script::Decl;
use pr_story::Event;
use std::alloc::Global;

/// The event that a line may be one of, with its node, where there is a node.
#[tactic(auto, unfolding(crate::specs::Events::told_of))]
pub fn told(alloc: Global, decls: &[Decl], line: &[u8]) -> Result<Told, Refusal>
    requires labels { AreLabels decls.now }
    requires some { Has decls.now kinds.Node 0 }
    ensures reads { Gives result (told_of decls.now line.now) }
    ensures told { IfOk result (λ told. IsTellableAt decls.now told.node told.event) }
{
    stream_told(alloc, decls, field_at(0, line), line)
}

#[tactic(auto, unfolding(crate::specs::Events::stream_told))]
fn stream_told(alloc: Global, decls: &[Decl], word: &[u8], line: &[u8]) -> Result<Told, Refusal>
    requires labels { AreLabels decls.now }
    requires some { Has decls.now kinds.Node 0 }
    ensures reads { Gives result (stream_told decls.now word.now line.now) }
    ensures told { IfOk result (λ told. IsTellableAt decls.now told.node told.event) }
{
    if word == b"attach".as_slice() {
        let event = attached(alloc, decls, line)?;
        return Ok(Told { node: 0, event });
    }
    if word == b"idle".as_slice() {
        let event = idle(decls, line).ok_or(Refusal::Unread)?;
        return Ok(Told { node: 0, event });
    }
    if word == b"stale".as_slice() {
        let event = stale(alloc, decls, line)?;
        return Ok(Told { node: 0, event });
    }
    if word == b"down".as_slice() {
        let event = down(decls, line).ok_or(Refusal::Unread)?;
        return Ok(Told { node: 0, event });
    }
    message_told(alloc, decls, word, line)
}

#[tactic(auto, unfolding(crate::specs::Events::message_told))]
fn message_told(alloc: Global, decls: &[Decl], word: &[u8], line: &[u8]) -> Result<Told, Refusal>
    requires labels { AreLabels decls.now }
    requires some { Has decls.now kinds.Node 0 }
    ensures reads { Gives result (message_told decls.now word.now line.now) }
    ensures told { IfOk result (λ told. IsTellableAt decls.now told.node told.event) }
{
    if word == b"send".as_slice() {
        let event = sent(alloc, decls, line)?;
        return Ok(Told { node: 0, event });
    }
    if word == b"accept".as_slice() {
        let event = accepted(alloc, decls, line)?;
        return Ok(Told { node: 0, event });
    }
    if word == b"gap".as_slice() {
        let event = gapped(alloc, decls, line)?;
        return Ok(Told { node: 0, event });
    }
    if word == b"missing".as_slice() {
        let event = missing(decls, line).ok_or(Refusal::Unread)?;
        return Ok(Told { node: 0, event });
    }
    client_told(alloc, decls, word, line)
}

#[tactic(auto, unfolding(crate::specs::Events::client_told))]
fn client_told(alloc: Global, decls: &[Decl], word: &[u8], line: &[u8]) -> Result<Told, Refusal>
    requires labels { AreLabels decls.now }
    requires some { Has decls.now kinds.Node 0 }
    ensures reads { Gives result (client_told decls.now word.now line.now) }
    ensures told { IfOk result (λ told. IsTellableAt decls.now told.node told.event) }
{
    if word == b"write".as_slice() {
        let event = write(alloc, decls, line)?;
        return Ok(Told { node: 0, event });
    }
    if word == b"delete".as_slice() {
        let event = delete(alloc, decls, line)?;
        return Ok(Told { node: 0, event });
    }
    if word == b"read".as_slice() {
        let event = answered(alloc, decls, line)?;
        return Ok(Told { node: 0, event });
    }
    if word == b"behind".as_slice() {
        let event = refused(alloc, decls, line)?;
        return Ok(Told { node: 0, event });
    }
    if word == b"move".as_slice() {
        return moved(decls, line).ok_or(Refusal::Unread);
    }
    node_told(alloc, decls, word, line)
}

#[tactic(auto, unfolding(crate::specs::Events::node_told))]
fn node_told(alloc: Global, decls: &[Decl], word: &[u8], line: &[u8]) -> Result<Told, Refusal>
    requires { AreLabels decls.now }
    ensures reads { Gives result (node_told decls.now word.now line.now) }
    ensures told { IfOk result (λ told. IsTellableAt decls.now told.node told.event) }
{
    let node = node_at(decls, line).ok_or(Refusal::Unread)?;
    let event = at_node(alloc, decls, word, line)?;
    Ok(Told { node, event })
}

#[tactic(auto, unfolding(crate::specs::Events::at_node))]
fn at_node(alloc: Global, decls: &[Decl], word: &[u8], line: &[u8]) -> Result<Event, Refusal>
    requires { AreLabels decls.now }
    ensures reads { Gives result (at_node decls.now word.now line.now) }
    ensures tellable { IfOk result (IsTellable decls.now) }
{
    if word == b"cut".as_slice() {
        return cut(alloc, decls, line);
    }
    if word == b"drop".as_slice() {
        return dropped(line).ok_or(Refusal::Unread);
    }
    if word == b"conflicts".as_slice() {
        return conflicts(alloc, decls, line);
    }
    if word == b"state".as_slice() {
        return state(alloc, decls, line);
    }
    Err(Refusal::Unread)
}
