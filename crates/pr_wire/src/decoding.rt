// From a frame to its message.
ghost use Rattle.pr_inval.specs.declared.msg.Msg.{Msg};
ghost use Rattle.pr_wire.specs.Frames.{IsFrame};
ghost use Rattle.pr_wire.specs.declared.format.Format.{Format};
ghost use Rattle.std.specs.Prelude.{◌≡◌, IfOk};

use crate::fault::Fault;
use crate::format::Format;
use crate::frame::HEAD;
use crate::reading::message;
use pr_inval::Msg;
use pr_stamps::NoMemory;
use std::alloc::Global;

/// The message of which these bytes are just the frame in format 2 (docs/WIRE.md), in time linear in them. It takes
/// memory for what is decoded alone.
pub fn decode(alloc: Global, bytes: &[u8]) -> Result<Msg, NoMemory>
    requires { (m : Msg) × IsFrame Format.Two m bytes.now }
    ensures { (m : Msg) → IsFrame Format.Two m bytes.now → IfOk result (λ n. n ≡ m) }
{
    let (_, content) = bytes.split_at(HEAD);
    match message(alloc, Format::Two, content) {
        Ok(msg) => Ok(msg),
        Err(Fault::NoMemory) => Err(NoMemory),
        Err(Fault::Bad) => unreachable!(),
    }
}
