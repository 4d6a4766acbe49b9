// A wire over TCP.
ghost use Rattle.pr_wires.specs.Calls.{HasPut, HasTaken};
ghost use Rattle.pr_wires.specs.Loops.{IsCounted, loop_state};
ghost use Rattle.std.specs.Prelude.{◌≡◌, ◌≤◌, ◌+◌, length};

use crate::Wire;
use crate::causes::Causes;
use pr_ports::Failed;
use std::io::{Read, Write};
use std::marker::Model;
use std::net::TcpStream;

/// Both ends of one connection: what is put goes in at the one and comes out at the other. It tells none of its
/// bytes. A call may wait for the system; since at most 4,096 bytes are under way, which a connection's buffers hold,
/// and no more is asked for than is under way, no call waits for the other end's call.
#[derive(Drop)]
pub struct LoopWire {
    near: TcpStream,
    far: TcpStream,
    under: usize,
    causes: Causes,
}

impl Model for LoopWire {
    ghost use Rattle.pr_wires.specs.Loops.{Loop};

    ghost Value = { Loop };

    ghost view = { λ w. record { faults = w.causes.faults; ends = w.causes.ends; under = w.under } };
}

impl LoopWire {
    // The connection of these two ends.
    pub(crate) fn between(near: TcpStream, far: TcpStream) -> LoopWire
        ensures { result ≡ record { faults = 0; ends = 0; under = 0 } }
    {
        LoopWire {
            near,
            far,
            under: 0,
            causes: Causes::none(),
        }
    }
}

impl Wire for LoopWire {
    ghost state = { loop_state };

    fn put(&mut self, piece: &[u8]) -> Result<usize, Failed>
        requires { self.old.under + length piece.now ≤ 4096 }
        ensures put { HasPut (loop_state self.old) (loop_state self.new) piece.now result }
        ensures counted { IsCounted self.old self.new (length piece.now) result }
    {
        match self.near.write(piece) {
            Ok(put) => {
                self.under += put;
                self.causes.note(put, piece.len());
                Ok(put)
            }
            Err(_) => Err(self.causes.fail()),
        }
    }

    fn take(&mut self, buf: &mut [u8]) -> Result<usize, Failed>
        requires { length buf.old ≤ self.old.under }
        ensures taken { HasTaken (loop_state self.old) (loop_state self.new) (length buf.old) buf.new result }
        ensures counted { IsCounted self.old self.new (length buf.old) result }
    {
        if buf.is_empty() {
            // The system would wait for a byte.
            return Ok(0);
        }
        match self.far.read(buf) {
            Ok(taken) => {
                self.under -= taken;
                self.causes.note(taken, buf.len());
                Ok(taken)
            }
            Err(_) => Err(self.causes.fail()),
        }
    }
}
