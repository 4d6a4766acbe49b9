// The events of clients.
ghost use Rattle.pr_check.specs.Events.{answered_of, behind_of, client_at, delete_of, moved_of, write_of, wrote_with};
ghost use Rattle.pr_check.specs.Fields.{Gives};
ghost use Rattle.pr_check.specs.Lines.{IsTellable, IsTellableAt};
ghost use Rattle.pr_script.specs.Labels.{AreLabels};
ghost use Rattle.pr_script.specs.declared.kind.Kind.TheVariants as kinds;
ghost use Rattle.pr_story.specs.Ranges.{IsBytes};
ghost use Rattle.pr_text.specs.Numbers.{Has};
ghost use Rattle.std.specs.Prelude.{◌≡◌, IfOk, IfSome};

use crate::answer::{reply, width_of};
use crate::field::{behind, field_at};
use crate::part::{number, text};
use crate::refusal::Refusal;
use crate::stamp::{prev, stamp};
use crate::told::Told;
use crate::vector::packed;
use pr_inval::WriteRec;
use pr_script::{Bytes, Decl, Kind, name};
use pr_stamps::Seq;
use pr_story::Event;
use std::alloc::Global;

fn client_at(decls: &[Decl], line: &[u8]) -> Option<u32>
    requires { AreLabels decls.now }
    ensures reads { result ≡ client_at decls.now line.now }
    ensures declared { IfSome result (Has decls.now kinds.Client) }
{
    number(decls, Kind::Client, field_at(1, line))
}

#[tactic(auto, unfolding(crate::specs::Events::write_of))]
pub fn write(alloc: Global, decls: &[Decl], line: &[u8]) -> Result<Event, Refusal>
    requires { AreLabels decls.now }
    ensures reads { Gives result (write_of decls.now line.now) }
    ensures tellable { IfOk result (IsTellable decls.now) }
{
    let body = text(alloc, field_at(3, line))?;
    wrote_with(alloc, decls, false, body, line, behind(4, line))
}

#[tactic(auto, unfolding(crate::specs::Events::delete_of))]
pub fn delete(alloc: Global, decls: &[Decl], line: &[u8]) -> Result<Event, Refusal>
    requires { AreLabels decls.now }
    ensures reads { Gives result (delete_of decls.now line.now) }
    ensures tellable { IfOk result (IsTellable decls.now) }
{
    wrote_with(alloc, decls, true, Seq::new(alloc), line, behind(3, line))
}

// A write with this body, where the fields from its stamp on are the rest.
#[tactic(auto, unfolding(crate::specs::Events::wrote_with))]
fn wrote_with(
    alloc: Global,
    decls: &[Decl],
    gone: bool,
    body: Bytes,
    line: &[u8],
    rest: &[u8],
) -> Result<Event, Refusal>
    requires labels { AreLabels decls.now }
    requires bytes { IsBytes body }
    ensures reads { Gives result (wrote_with decls.now gone body line.now rest.now) }
    ensures tellable { IfOk result (IsTellable decls.now) }
{
    let client = client_at(decls, line).ok_or(Refusal::Unread)?;
    let name = name(field_at(2, line)).ok_or(Refusal::Unread)?;
    let _ = name.bytes();
    let stamp = stamp(decls, field_at(0, rest)).ok_or(Refusal::Unread)?;
    let prev = prev(decls, field_at(2, rest)).ok_or(Refusal::Unread)?;
    let after = packed(alloc, decls, field_at(4, rest))?;
    let write = WriteRec {
        name,
        stamp,
        prev,
        gone,
    };
    Ok(Event::Wrote {
        client,
        write,
        body,
        after,
    })
}

#[tactic(auto, unfolding(crate::specs::Events::answered_of))]
pub fn answered(alloc: Global, decls: &[Decl], line: &[u8]) -> Result<Event, Refusal>
    requires { AreLabels decls.now }
    ensures reads { Gives result (answered_of decls.now line.now) }
    ensures tellable { IfOk result (IsTellable decls.now) }
{
    let client = client_at(decls, line).ok_or(Refusal::Unread)?;
    let name = name(field_at(2, line)).ok_or(Refusal::Unread)?;
    let _ = name.bytes();
    let reply = reply(alloc, decls, field_at(3, line), behind(3, line))?;
    let at = packed(alloc, decls, field_at(width_of(&reply) + 4, line))?;
    Ok(Event::Answered {
        client,
        name,
        reply,
        at,
    })
}

#[tactic(auto, unfolding(crate::specs::Events::behind_of))]
pub fn refused(alloc: Global, decls: &[Decl], line: &[u8]) -> Result<Event, Refusal>
    requires { AreLabels decls.now }
    ensures reads { Gives result (behind_of decls.now line.now) }
    ensures tellable { IfOk result (IsTellable decls.now) }
{
    let client = client_at(decls, line).ok_or(Refusal::Unread)?;
    let needs = packed(alloc, decls, field_at(3, line))?;
    let has = packed(alloc, decls, field_at(5, line))?;
    Ok(Event::Behind { client, needs, has })
}

#[tactic(auto, unfolding(crate::specs::Events::moved_of))]
pub fn moved(decls: &[Decl], line: &[u8]) -> Option<Told>
    requires { AreLabels decls.now }
    ensures reads { result ≡ moved_of decls.now line.now }
    ensures told { IfSome result (λ told. IsTellableAt decls.now told.node told.event) }
{
    let client = client_at(decls, line)?;
    let node = number(decls, Kind::Node, field_at(2, line))?;
    Some(Told {
        node,
        event: Event::Moved { client },
    })
}
