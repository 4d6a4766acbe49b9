// What a line says.
ghost use Rattle.pr_check.specs.Events.{said_if};
ghost use Rattle.pr_check.specs.Lines.{Says};
ghost use Rattle.pr_script.specs.Labels.{AreLabels};
ghost use Rattle.pr_script.specs.declared.kind.Kind.TheVariants as kinds;
ghost use Rattle.pr_text.specs.Lines.{sentence};
ghost use Rattle.pr_text.specs.Numbers.{Has};
ghost use Rattle.std.specs.Prelude.{◌≡◌, ◌↔◌, IfOk, IsTrue};
ghost use Rattle.std.specs.Str.{bytes_eq};

use crate::event::told;
use crate::refusal::Refusal;
use crate::said::{Said, said_of};
use crate::told::Told;
use pr_script::{Decls, Kind};
use pr_stamps::{NoMemory, Seq};
use pr_story::Event;
use pr_text::line as print_line;
use std::alloc::Global;

/// What a line, without its end, says that was asked for; None where it is no event's line. Its fields are read by their
/// places, and the event that they make is printed again and compared with the line. It takes time linear in the line, a
/// few times over, and for each label in it linear in the declarations.
pub fn read_line(alloc: Global, decls: &Decls, line: &[u8]) -> Result<Option<Said>, NoMemory>
    requires { AreLabels decls.now.list }
    ensures { IfOk result (Says decls.now.list line.now) }
{
    let list = decls.as_slice();
    if !has_node(decls) {
        return Ok(None);
    }
    match told(alloc, list, line) {
        Ok(told) => said_if_printed(alloc, decls, told, line),
        Err(Refusal::Unread) => Ok(None),
        Err(Refusal::NoMemory) => Err(NoMemory),
    }
}

// Whether a node is declared.
fn has_node(decls: &Decls) -> bool
    requires { AreLabels decls.now.list }
    ensures { IsTrue result ↔ Has decls.now.list kinds.Node 0 }
{
    !decls.label(Kind::Node, 0).is_empty()
}

// What the event says, where the line is its line.
fn said_if_printed(
    alloc: Global,
    decls: &Decls,
    told: Told,
    line: &[u8],
) -> Result<Option<Said>, NoMemory>
    ensures { IfOk result (λ said. said ≡ said_if decls.now.list told.node told.event line.now) }
{
    let Told { node, event } = told;
    let is_line = is_printed(alloc, decls, node, &event, line);
    let said = said_of(node, event);
    if is_line? { Ok(Some(said)) } else { Ok(None) }
}

/// Whether the line, without its end, is that of the event at the node.
pub fn is_printed(
    alloc: Global,
    decls: &Decls,
    node: u32,
    event: &Event,
    line: &[u8],
) -> Result<bool, NoMemory>
    ensures { IfOk result (λ is. is ≡ bytes_eq (sentence decls.now.list node event.now) line.now) }
{
    let mut text = Seq::new(alloc);
    print_line(decls, node, event, &mut text)?;
    text.truncate(text.len() - 1);
    Ok(text.as_slice() == line)
}
