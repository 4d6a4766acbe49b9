// Messages that were sent.
ghost use Rattle.pr_inval.specs.declared.msg.Msg.{Msg};
ghost use Rattle.pr_sim.specs.Messages.{IsPlace, IsSentAt, IsSentLast};
ghost use Rattle.pr_stamps.specs.Kept.{Kept};
ghost use Rattle.pr_story.specs.Places.{SendsAt};
ghost use Rattle.pr_inval.specs.Messages.{IsMessage};
ghost use Rattle.std.specs.Prelude.{◌≡◌, ◌<◌, ℕ, IfOk, length, slice_index_or};

use crate::engine::node_at;
use pr_inval::Msg;
use pr_node::Node;
use pr_stamps::{NoMemory, Roomy};
use pr_story::{Event, Journal};
use pr_wire::through_bytes;
use std::alloc::Global;

// The place of the stream's message of this number, if it was sent.
pub fn place_of(sent: &Vec<Roomy<usize>>, stream: u32, number: u64) -> Option<usize>
    requires { stream < length sent.now.items }
    ensures { (d : Kept ℕ) → IsPlace (slice_index_or sent.now.items stream d).items number result }
{
    let places = sent[stream as usize].as_slice();
    if number == 0 || number > places.len() as u64 {
        return None;
    }
    Some(places[(number - 1) as usize])
}

// The message that stands there, through its bytes.
pub fn again(
    alloc: Global,
    nodes: &Vec<Option<Node>>,
    node: u32,
    place: usize,
) -> Result<Msg, NoMemory>
    requires { (msg : Msg) × IsSentAt nodes.now.items node place msg × IsMessage msg }
    ensures { (msg : Msg) → IsSentAt nodes.now.items node place msg → IfOk result (λ m. m ≡ msg) }
{
    through_bytes(alloc, sent_at(node_at(nodes, node).journal(), place))
}

// The message that the node's newest entry sends.
pub fn last_sent(nodes: &Vec<Option<Node>>, node: u32) -> &Msg
    requires { (msg : Msg) × IsSentLast nodes.now.items node msg }
    ensures { (msg : Msg) → IsSentLast nodes.now.items node msg → result.now ≡ msg }
{
    let journal = node_at(nodes, node).journal();
    sent_at(journal, journal.len() - 1)
}

fn sent_at(journal: &Journal, place: usize) -> &Msg
    requires { (msg : Msg) × SendsAt journal.now.items place msg }
    ensures { (msg : Msg) → SendsAt journal.now.items place msg → result.now ≡ msg }
{
    match &journal.entry(place).event {
        Event::Sent { msg } => msg,
        _ => unreachable!(),
    }
}
