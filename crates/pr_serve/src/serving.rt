// A node serves the asks of an input.
ghost use Rattle.pr_node.specs.Stored.{means};
ghost use Rattle.pr_serve.specs.Serving.{ServesSo};
ghost use Rattle.pr_serve.specs.Sinks.{sink};
ghost use Rattle.std.specs.Io.KnownBytes.{prepend_known};
ghost use Rattle.std.specs.Prelude.{◌≤◌, length};

use crate::answering::answer;
use crate::asking::next_ask;
use crate::serve_fault::ServeFault;
use crate::stop::fault_of;
use crate::window::Window;
use pr_node::Node;
use pr_ports::{Sink, Source};
use std::alloc::Global;

/// Answers the asks of an input to its end, and says how many there were: each gets the frames of its stream's turns at
/// the node, and a byte that ends them. Besides the calls on the node it takes time linear in the bytes read and written,
/// and memory for one ask at a time. After a fault the text has grown by the answers of the asks that were read, or by a
/// beginning of them.
pub fn serve<S: Source, K: Sink>(
    alloc: Global,
    node: &mut Node,
    source: &mut S,
    out: &mut K,
) -> Result<u64, ServeFault>
    ensures so { ServesSo (record { left = S.left source.old; faults = S.faults source.old; sink = sink (K.text out.old) (K.faults out.old); node = means node.old }) (record { left = S.left source.new; faults = S.faults source.new; sink = sink (K.text out.new) (K.faults out.new); node = means node.new }) result }
    ensures rises { S.faults source.old ≤ S.faults source.new }
{
    serve_rest(alloc, node, &[], source, out)
}

/// Serves, as `serve` does, an input of which these bytes, at most 4,096, were read ahead.
pub fn serve_rest<S: Source, K: Sink>(
    alloc: Global,
    node: &mut Node,
    ahead: &[u8],
    source: &mut S,
    out: &mut K,
) -> Result<u64, ServeFault>
    requires { length ahead.now ≤ 4096 }
    ensures so { ServesSo (record { left = prepend_known ahead.now (S.left source.old); faults = S.faults source.old; sink = sink (K.text out.old) (K.faults out.old); node = means node.old }) (record { left = S.left source.new; faults = S.faults source.new; sink = sink (K.text out.new) (K.faults out.new); node = means node.new }) result }
    ensures rises { S.faults source.old ≤ S.faults source.new }
{
    let mut window = Window::new(ahead);
    let mut count = 0;
    loop {
        let at = window.taken();
        let ask = match next_ask(alloc, source, &mut window) {
            Ok(Some(ask)) => ask,
            Ok(None) => return Ok(count),
            Err(stop) => return Err(fault_of(stop, at)),
        };
        answer(alloc, node, ask, out)?;
        count += 1;
    }
}
