// Wires over TCP on this machine.
ghost use Rattle.pr_ports.specs.Faults.{HasRisen};
ghost use Rattle.pr_wires.specs.Calls.{IsUnused};
ghost use Rattle.pr_wires.specs.Loops.{CountsRefused, loop_state};
ghost use Rattle.pr_wires.specs.Made.{AnswersBySound, wires_given};
ghost use Rattle.std.specs.Prelude.{◌≡◌, ◌≤◌, ◌<◌, ◌+◌, ◌^◌, IfOk, OnErr, None, false};

use crate::{LoopWire, Wires};
use pr_ports::Failed;
use std::io;
use std::io::ErrorKind;
use std::marker::Model;
use std::net::{Ipv4Addr, Net, SocketAddr, SocketAddrV4, TcpListener, TcpStream};

/// Makes connections over TCP on 127.0.0.1, each through a listener of its own that is closed again. Any may fail, so
/// none is sound.
#[derive(Drop)]
pub struct LoopWires<R> {
    net: R,
    made: u64,
    out: u64,
    faults: u64,
}

impl<R> Model for LoopWires<R> {
    ghost use Rattle.std.specs.Prelude.{◌≤◌};
    ghost use Rattle.pr_wires.specs.Loops.{Makers};

    ghost Value = { Makers };

    ghost view = { λ w. record { made = w.made; out = w.out; faults = w.faults } };

    ghost invariant = { λ w. w.out ≤ w.made };
}

impl<R> LoopWires<R> {
    /// Makes wires by this network: a runtime, or a reference to one.
    pub fn new(net: R) -> LoopWires<R>
        ensures { result ≡ record { made = 0; out = 0; faults = 0 } }
    {
        LoopWires {
            net,
            made: 0,
            out: 0,
            faults: 0,
        }
    }
}

impl<R: Net<Listener = TcpListener, Stream = TcpStream>> Wires for LoopWires<R> {
    type Wire = LoopWire;

    ghost faults = { λ w. w.faults };

    ghost made = { λ w. w.made };

    ghost out = { λ w. w.out };

    ghost sound = { λ w k. false };

    ghost carried = { λ w. None };

    fn connect(&mut self, _from: u32, _to: u32) -> Result<LoopWire, Failed>
        requires { self.old.made < 2 ^ 40 }
        ensures made { self.new.made ≡ self.old.made + 1 }
        ensures out { self.new.out ≡ self.old.out + wires_given result }
        ensures faults { self.old.faults ≤ self.new.faults }
        ensures counted { CountsRefused self.old.faults self.new.faults result }
        ensures failed { OnErr result (HasRisen self.old.faults self.new.faults) }
        ensures fresh { IfOk result (λ w. w ≡ record { faults = 0; ends = 0; under = 0 }) }
    {
        self.made += 1;
        match connection(&self.net) {
            Ok(wire) => {
                self.out += 1;
                Ok(wire)
            }
            Err(_) => {
                self.faults = self.faults.saturating_add(1);
                Err(Failed)
            }
        }
    }

    fn close(&mut self, _wire: LoopWire) {
        self.out -= 1;
    }
}

// A connection of this program to itself. Its small pieces are sent at once.
fn connection<R: Net<Listener = TcpListener, Stream = TcpStream>>(net: &R) -> io::Result<LoopWire>
    ensures { IfOk result (λ w. w ≡ record { faults = 0; ends = 0; under = 0 }) }
{
    let any_port = SocketAddr::V4(SocketAddrV4::new(Ipv4Addr::LOCALHOST, 0));
    let listener = TcpListener::bind(net, any_port)?;
    let near = TcpStream::connect(net, listener.local_addr()?)?;
    let (far, peer) = listener.accept()?;
    if peer != near.local_addr()? {
        // Another program came first.
        return Err(io::Error::from(ErrorKind::ConnectionRefused));
    }
    near.set_nodelay(true)?;
    Ok(LoopWire::between(near, far))
}
