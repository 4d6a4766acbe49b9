// The frames of an input.
ghost use Rattle.pr_serve.specs.Frames.{IsFoundPart, IsRestOfFrame};
ghost use Rattle.pr_serve.specs.Inputs.{input};
ghost use Rattle.std.specs.Prelude.{◌≤◌};

use crate::naming::is_wanted;
use crate::stop::Stop;
use crate::window::Window;
use pr_inval::Msg;
use pr_ports::Source;
use pr_wire::{Feed, Next};
use std::alloc::Global;

/// The input's end, a byte that ends an answer, or a message.
#[derive(Drop)]
pub enum Part {
    Over,
    EndByte,
    Message(Msg),
}

/// Takes what comes next off an input: a frame is of a message that names only nodes below `nodes`, and whose stream is
/// one of these. Besides the input it takes time linear in the frame.
pub fn next_part<S: Source>(
    alloc: Global,
    nodes: u32,
    streams: &[u32],
    source: &mut S,
    window: &mut Window,
) -> Result<Part, Stop>
    ensures so { IsFoundPart nodes streams.now (input (S.left source.old) (S.faults source.old) window.old) (input (S.left source.new) (S.faults source.new) window.new) result }
    ensures most { window.new.taken ≤ 67108864 }
{
    let first = match window.next(source)? {
        Some(first) => first,
        None => return Ok(Part::Over),
    };
    if first == 0 {
        return Ok(Part::EndByte);
    }
    let msg = frame(alloc, first, source, window)?;
    if is_wanted(&msg, nodes, streams) {
        Ok(Part::Message(msg))
    } else {
        Err(Stop::Bad)
    }
}

// The message of the frame that begins with this byte, which was taken.
fn frame<S: Source>(
    alloc: Global,
    first: u8,
    source: &mut S,
    window: &mut Window,
) -> Result<Msg, Stop>
    requires { window.old.taken ≤ 67108864 }
    ensures so { IsRestOfFrame first (input (S.left source.old) (S.faults source.old) window.old) (input (S.left source.new) (S.faults source.new) window.new) result }
    ensures most { window.new.taken ≤ 67108864 }
{
    let mut feed = Feed::new(alloc, u64::MAX);
    let mut byte = first;
    loop {
        feed.push(&[byte])?;
        match feed.next()? {
            Next::Message(msg) => return Ok(msg),
            Next::Bad { .. } => return Err(Stop::Bad),
            Next::More => {}
        }
        byte = match window.next(source)? {
            Some(next) => next,
            None => return Err(Stop::Bad),
        };
    }
}
