// Lines that come one after another, printed with texts of clocks that are kept.
ghost use Rattle.pr_text.specs.Texts.{AreOfNodes};

use super::streams::{accepted, precise, sent};
use super::{bytes, packed, set};
use crate::{ClockTexts, line, next_line};
use pr_inval::Kind;
use pr_script::{Decls, read};
use pr_story::Event;
use std::alloc::Global;

const THREE: &[u8] = b"node A a/*,b c\nnode B\nnode C\nclient c A\nstream s A B *\n";

fn three(alloc: Global) -> Option<Decls> {
    match read(alloc, THREE) {
        Ok(script) => Some(script.decls),
        Err(_) => None,
    }
}

// Whether both calls make the same line of the event.
fn is_same(alloc: Global, decls: &Decls, clocks: &mut ClockTexts, event: &Event) -> Option<bool>
    requires { AreOfNodes decls.now.list clocks.old }
    ensures { AreOfNodes decls.now.list clocks.new }
{
    let mut one = bytes(alloc, b"before\n")?;
    let mut next = bytes(alloc, b"before\n")?;
    line(decls, 1, event, &mut one).ok()?;
    next_line(decls, clocks, 1, event, &mut next).ok()?;
    Some(one.as_slice() == next.as_slice() && !next.is_empty())
}

// The same of the event that a message is sent.
fn is_sent_the_same(
    alloc: Global,
    decls: &Decls,
    clocks: &mut ClockTexts,
    kind: Option<Kind>,
) -> Option<bool>
    requires { AreOfNodes decls.now.list clocks.old }
    ensures { AreOfNodes decls.now.list clocks.new }
{
    let event = sent(kind)?;
    is_same(alloc, decls, clocks, &event)
}

// The same of the event that a message is accepted.
fn is_accepted_the_same(alloc: Global, decls: &Decls, clocks: &mut ClockTexts) -> Option<bool>
    requires { AreOfNodes decls.now.list clocks.old }
    ensures { AreOfNodes decls.now.list clocks.new }
{
    let event = accepted(alloc)?;
    is_same(alloc, decls, clocks, &event)
}

// A message that starts where the precise one ends.
fn from_its_end(alloc: Global) -> Option<Kind> {
    let target = set(alloc, b"b")?;
    Some(Kind::Imprecise {
        from: packed(alloc, 1, 2)?,
        to: packed(alloc, 30, 2)?,
        target,
    })
}

// Whether the lines are the same of a message that nothing was kept for, of two each of which starts where the one before
// it ends, and of the first of them again.
fn are_same_in_turn(alloc: Global, decls: &Decls, clocks: &mut ClockTexts) -> Option<bool>
    requires { AreOfNodes decls.now.list clocks.old }
{
    Some(
        is_accepted_the_same(alloc, decls, clocks)?
            && is_sent_the_same(alloc, decls, clocks, precise(alloc, false))?
            && is_accepted_the_same(alloc, decls, clocks)?
            && is_sent_the_same(alloc, decls, clocks, from_its_end(alloc))?
            && is_sent_the_same(alloc, decls, clocks, precise(alloc, false))?,
    )
}

fn are_same(alloc: Global) -> Option<bool> {
    let decls = three(alloc)?;
    let mut clocks = ClockTexts::new(alloc);
    are_same_in_turn(alloc, &decls, &mut clocks)
}

#[test]
fn lines_with_kept_clocks(rt: HostRuntime) {
    assert!(rt; are_same(rt.alloc()).unwrap_or(false));
}
