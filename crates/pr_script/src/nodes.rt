// Lines of commands on nodes, and of words alone.
ghost use Rattle.pr_script.specs.Fields.{Gives};
ghost use Rattle.pr_script.specs.Lines.{conflicts_line, cut_line, drop_line, end_line, phase_line, settle_line, state_line};
ghost use Rattle.pr_script.specs.Reading.{Fits};
ghost use Rattle.std.specs.Prelude.{IfOk};

use crate::Command;
use crate::fields::blank;
use crate::item::Item;
use crate::kind::Kind;
use crate::known::Known;
use crate::parts::{label_alone, label_and_name};
use crate::refusal::Refusal;

#[tactic(auto, unfolding(crate::specs::Lines::cut_line))]
pub fn cut(known: &Known, rest: &[u8]) -> Result<Item, Refusal>
    ensures gives { Gives (λ x. x) result (cut_line known.now rest.now) }
    ensures fits { IfOk result (Fits known.now) }
{
    let node = label_alone(Kind::Node, known, rest)?;
    if known.in_phase {
        return Err(Refusal::Why(12));
    }
    Ok(Item::Command(Command::Cut { node }))
}

#[tactic(auto, unfolding(crate::specs::Lines::state_line))]
pub fn state(known: &Known, rest: &[u8]) -> Result<Item, Refusal>
    ensures gives { Gives (λ x. x) result (state_line known.now rest.now) }
    ensures fits { IfOk result (Fits known.now) }
{
    let node = label_alone(Kind::Node, known, rest)?;
    if known.in_phase {
        return Err(Refusal::Why(12));
    }
    Ok(Item::Command(Command::State { node }))
}

#[tactic(auto, unfolding(crate::specs::Lines::drop_line))]
pub fn drop_body(known: &Known, rest: &[u8]) -> Result<Item, Refusal>
    ensures gives { Gives (λ x. x) result (drop_line known.now rest.now) }
    ensures fits { IfOk result (Fits known.now) }
{
    let (node, name) = label_and_name(Kind::Node, known, rest)?;
    if known.in_phase {
        return Err(Refusal::Why(12));
    }
    Ok(Item::Command(Command::Drop { node, name }))
}

#[tactic(auto, unfolding(crate::specs::Lines::conflicts_line))]
pub fn conflicts(known: &Known, rest: &[u8]) -> Result<Item, Refusal>
    ensures gives { Gives (λ x. x) result (conflicts_line known.now rest.now) }
    ensures fits { IfOk result (Fits known.now) }
{
    let (node, name) = label_and_name(Kind::Node, known, rest)?;
    if known.in_phase {
        return Err(Refusal::Why(12));
    }
    Ok(Item::Command(Command::Conflicts { node, name }))
}

#[tactic(auto, unfolding(crate::specs::Lines::settle_line))]
pub fn settle(known: &Known, rest: &[u8]) -> Result<Item, Refusal>
    ensures gives { Gives (λ x. x) result (settle_line known.now rest.now) }
    ensures fits { IfOk result (Fits known.now) }
{
    if !blank(rest) {
        return Err(Refusal::Why(3));
    }
    if known.in_phase {
        return Err(Refusal::Why(12));
    }
    Ok(Item::Command(Command::Settle))
}

#[tactic(auto, unfolding(crate::specs::Lines::phase_line))]
pub fn phase(known: &Known, rest: &[u8]) -> Result<Item, Refusal>
    ensures gives { Gives (λ x. x) result (phase_line known.now rest.now) }
    ensures fits { IfOk result (Fits known.now) }
{
    if !blank(rest) {
        return Err(Refusal::Why(3));
    }
    if known.in_phase {
        return Err(Refusal::Why(12));
    }
    Ok(Item::Command(Command::Phase))
}

#[tactic(auto, unfolding(crate::specs::Lines::end_line))]
pub fn end(known: &Known, rest: &[u8]) -> Result<Item, Refusal>
    ensures gives { Gives (λ x. x) result (end_line known.now rest.now) }
    ensures fits { IfOk result (Fits known.now) }
{
    if !blank(rest) {
        return Err(Refusal::Why(3));
    }
    if !known.in_phase {
        return Err(Refusal::Why(12));
    }
    Ok(Item::Command(Command::End))
}
