// What a node takes in of an input.
ghost use Rattle.pr_node.specs.Stored.{means};
ghost use Rattle.pr_inval.specs.Messages.{IsMessage};
ghost use Rattle.pr_serve.specs.Pulling.{PullsSo, TakesOne};
ghost use Rattle.std.specs.Io.KnownBytes.{prepend_known};
ghost use Rattle.std.specs.Prelude.{◌≤◌, length};

use crate::framing::{Part, next_part};
use crate::serve_fault::ServeFault;
use crate::stop::fault_of;
use crate::window::Window;
use pr_inval::Msg;
use pr_node::Node;
use pr_ports::Source;
use std::alloc::Global;

/// The caller's number of each entry that is made here.
pub const CALLER: u32 = 0;

/// Gives a node the messages of an input to its end, and says how many there were. The bytes that end answers are
/// skipped. A frame that names a node from `nodes` upwards, or of a stream that is none of these, counts as no spelling.
/// Besides the calls on the node it takes time linear in the bytes, and memory for one frame at a time. The new entries
/// of the journal are those of the messages, in order, also after a fault.
pub fn pull<S: Source>(
    alloc: Global,
    node: &mut Node,
    nodes: u32,
    streams: &[u32],
    source: &mut S,
) -> Result<u64, ServeFault>
    ensures so { PullsSo nodes streams.now (record { left = S.left source.old; faults = S.faults source.old; node = means node.old }) (record { left = S.left source.new; faults = S.faults source.new; node = means node.new }) result }
    ensures rises { S.faults source.old ≤ S.faults source.new }
{
    pull_rest(alloc, node, nodes, streams, &[], source)
}

/// Gives a node, as `pull` does, the messages of an input of which these bytes, at most 4,096, were read ahead.
pub fn pull_rest<S: Source>(
    alloc: Global,
    node: &mut Node,
    nodes: u32,
    streams: &[u32],
    ahead: &[u8],
    source: &mut S,
) -> Result<u64, ServeFault>
    requires { length ahead.now ≤ 4096 }
    ensures so { PullsSo nodes streams.now (record { left = prepend_known ahead.now (S.left source.old); faults = S.faults source.old; node = means node.old }) (record { left = S.left source.new; faults = S.faults source.new; node = means node.new }) result }
    ensures rises { S.faults source.old ≤ S.faults source.new }
{
    let mut window = Window::new(ahead);
    let mut count = 0;
    loop {
        let at = window.taken();
        let msg = match next_part(alloc, nodes, streams, source, &mut window) {
            Ok(Part::Over) => return Ok(count),
            Ok(Part::EndByte) => continue,
            Ok(Part::Message(msg)) => msg,
            Err(stop) => return Err(fault_of(stop, at)),
        };
        take_in(node, msg)?;
        count += 1;
    }
}

// Gives the node a message.
fn take_in(node: &mut Node, msg: Msg) -> Result<(), ServeFault>
    requires { IsMessage msg }
    ensures { TakesOne (means node.old) (means node.new) msg result }
{
    drop(node.accept(CALLER, msg)?);
    Ok(())
}
