// The events of nodes.
ghost use Rattle.pr_check.specs.Events.{conflicts_of, cut_of, dropped_of, node_at, state_of};
ghost use Rattle.pr_check.specs.Fields.{Gives};
ghost use Rattle.pr_check.specs.Lines.{IsTellable};
ghost use Rattle.pr_script.specs.Labels.{AreLabels};
ghost use Rattle.pr_script.specs.declared.decl.Decl.{Decl as Declared};
ghost use Rattle.pr_script.specs.declared.kind.Kind.TheVariants as kinds;
ghost use Rattle.pr_text.specs.Numbers.{Has};
ghost use Rattle.std.specs.Prelude.{◌≡◌, IfOk, IfSome, List};

use crate::answer::found;
use crate::field::{behind, field_at};
use crate::part::number;
use crate::refusal::Refusal;
use crate::vector::{packed, vectors};
use pr_script::{Decl, Kind, name};
use pr_story::Event;
use std::alloc::Global;

/// The node that the line names.
pub fn node_at(decls: &[Decl], line: &[u8]) -> Option<u32>
    requires { AreLabels decls.now }
    ensures reads { result ≡ node_at decls.now line.now }
    ensures declared { IfSome result (Has decls.now kinds.Node) }
{
    number(decls, Kind::Node, field_at(1, line))
}

#[tactic(auto, unfolding(crate::specs::Events::cut_of))]
pub fn cut(alloc: Global, decls: &[Decl], line: &[u8]) -> Result<Event, Refusal>
    requires { AreLabels decls.now }
    ensures reads { Gives result (cut_of decls.now line.now) }
    ensures tellable { IfOk result (IsTellable decls.now) }
{
    let at = packed(alloc, decls, field_at(3, line))?;
    Ok(Event::Cut { at })
}

#[tactic(auto, unfolding(crate::specs::Events::dropped_of))]
pub fn dropped(line: &[u8]) -> Option<Event>
    ensures reads { result ≡ dropped_of line.now }
    ensures tellable { (ds : List Declared) → IfSome result (IsTellable ds) }
{
    let name = name(field_at(2, line))?;
    let _ = name.bytes();
    Some(Event::Dropped { name })
}

#[tactic(auto, unfolding(crate::specs::Events::conflicts_of))]
pub fn conflicts(alloc: Global, decls: &[Decl], line: &[u8]) -> Result<Event, Refusal>
    requires { AreLabels decls.now }
    ensures reads { Gives result (conflicts_of decls.now line.now) }
    ensures tellable { IfOk result (IsTellable decls.now) }
{
    let name = name(field_at(2, line)).ok_or(Refusal::Unread)?;
    let _ = name.bytes();
    let found = found(alloc, decls, behind(3, line))?;
    Ok(Event::Conflicts { name, found })
}

#[tactic(auto, unfolding(crate::specs::Events::state_of))]
pub fn state(alloc: Global, decls: &[Decl], line: &[u8]) -> Result<Event, Refusal>
    requires { AreLabels decls.now }
    ensures reads { Gives result (state_of decls.now line.now) }
    ensures tellable { IfOk result (IsTellable decls.now) }
{
    let at = packed(alloc, decls, field_at(3, line))?;
    let cut = packed(alloc, decls, field_at(5, line))?;
    let floor = packed(alloc, decls, field_at(7, line))?;
    let precise = vectors(alloc, decls, behind(9, line))?;
    if precise.is_empty() {
        return Err(Refusal::Unread);
    }
    Ok(Event::State {
        at,
        cut,
        floor,
        precise,
    })
}
