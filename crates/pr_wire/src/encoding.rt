// A message's frame at the end of bytes.
ghost use Rattle.pr_inval.specs.Messages.{IsMessage};
ghost use Rattle.pr_wire.specs.Messages.{IsInWidth};
ghost use Rattle.pr_wire.specs.Spelling.{spelling};
ghost use Rattle.pr_wire.specs.declared.format.Format.{Format};
ghost use Rattle.std.specs.Prelude.{◌≡◌, ◌++◌, OnErr, OnOk};

use crate::pieces::Pieces;
use pr_inval::{Bytes, Msg};
use pr_stamps::NoMemory;

/// Adds the frame of the message in format 2 (docs/WIRE.md), in time linear in it. A refusal leaves the bytes.
pub fn encode(msg: &Msg, out: &mut Bytes) -> Result<(), NoMemory>
    requires { IsMessage msg.now }
    ensures ok { OnOk result (out.new ≡ out.old ++ spelling Format.Two msg.now) }
    ensures err { OnErr result (out.new ≡ out.old) }
    ensures width { IsInWidth msg.now }
{
    Pieces::new(msg).append_to(out)
}
