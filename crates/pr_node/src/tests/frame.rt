// A message on its way.
ghost use Rattle.pr_inval.specs.Messages.{IsMessage};
ghost use Rattle.std.specs.Prelude.{◌≡◌, IfSome};

use pr_inval::Msg;
use std::alloc::Global;
use std::marker::Model;

/// A message that was sent, which is one of the grammar.
#[derive(Drop)]
pub struct Frame {
    msg: Msg,
}

impl Model for Frame {
    ghost use Rattle.pr_inval.specs.Messages.{IsMessage};
    ghost use Rattle.pr_inval.specs.declared.msg.Msg.{Msg};

    ghost Value = { Msg };

    ghost view = { λ f. f.msg };

    ghost invariant = { λ f. IsMessage f.msg };
}

impl Frame {
    pub fn of(alloc: Global, msg: &Msg) -> Option<Frame>
        requires { IsMessage msg.now }
    {
        let msg = msg.copy(alloc).ok()?;
        Some(Frame { msg })
    }

    /// Whether it is the stream's message of this number.
    pub fn is(&self, stream: u32, number: u64) -> bool {
        self.msg.stream == stream && self.msg.number == number
    }

    /// A copy of the message.
    pub fn message(&self, alloc: Global) -> Option<Msg>
        ensures { IfSome result IsMessage }
    {
        self.msg.copy(alloc).ok()
    }
}
