// What a stream remembers.
ghost use Rattle.pr_inval.specs.Standing.{HasBegun, HasDetached, HasHeard, HasSent, HasSentBody, IsNewSession, IsSameSession, means};
ghost use Rattle.pr_vectors.specs.Vector.{IsVector};
ghost use Rattle.std.specs.Prelude.{◌≡◌, ◌≤◌, ◌<◌, length, IsTrue, OnOk};

use crate::sent_bodies::SentBodies;
use pr_names::Name;
use pr_sets::NameSet;
use pr_stamps::{NoMemory, Stamp};
use pr_vectors::{Clocked, Vector};
use std::alloc::Global;
use std::marker::Model;

/// A stream's session: its subscription, its position, its last message number and event time, and the bodies sent
/// since its last attach. The number is at most the time, and the time at most `MAX`. The bodies are kept by their
/// hash, so a call takes constant time on average, whatever was sent; `begin`, which forgets them, takes time linear in
/// the room for them, which the most that were sent between two attaches took.
#[derive(Drop)]
pub struct Session {
    stream: u32,
    sub: NameSet,
    bodies: bool,
    attached: bool,
    pos: Vector,
    number: u64,
    time: u64,
    sent: SentBodies,
}

impl Model for Session {
    ghost use Rattle.std.specs.Prelude.{◌≤◌, ◌<◌, length};
    ghost use Rattle.pr_inval.specs.Standing.{Remembered};

    ghost Value = { Remembered };

    ghost view = { λ s. record { stream = s.stream; attached = s.attached; names = s.sub; bodies = s.bodies; position = s.pos; number = s.number; time = s.time; sent = s.sent } };

    ghost invariant = { λ s. (0 < length s.sub) × (s.number ≤ s.time) × (s.time ≤ 4611686018427387903) };
}

impl Session {
    /// A session that is not attached: its position is zero, its number and time are 0, and it has sent no body. It
    /// takes no memory.
    pub fn new(alloc: Global, stream: u32, sub: NameSet, bodies: bool) -> Session
        requires { 0 < length sub }
        ensures { IsNewSession (means result) stream sub bodies }
    {
        Session {
            stream,
            sub,
            bodies,
            attached: false,
            pos: Vector::zero(),
            number: 0,
            time: 0,
            sent: SentBodies::new(alloc),
        }
    }

    /// Its stream's number.
    pub fn stream(&self) -> u32
        ensures { result ≡ (means self.now).stream }
    {
        self.stream
    }

    /// The names that it subscribes to, of which there is at least one.
    pub fn sub(&self) -> &NameSet
        ensures value { result.now ≡ (means self.now).standing.names }
        ensures some { 0 < length (means self.now).standing.names }
    {
        &self.sub
    }

    /// Whether it sends bodies.
    pub fn bodies(&self) -> bool
        ensures { result ≡ (means self.now).standing.bodies }
    {
        self.bodies
    }

    /// The points that it has told, or that its start counted.
    pub fn pos(&self) -> &Vector
        ensures value { result.now ≡ (means self.now).standing.position }
        ensures range { IsVector result.now }
    {
        let _ = self.pos.at(0);
        &self.pos
    }

    /// The number of its last message, 0 before the first.
    pub fn number(&self) -> u64
        ensures value { result ≡ (means self.now).standing.number }
        ensures less { result ≤ (means self.now).standing.time }
    {
        self.number
    }

    /// The time of its last event.
    pub fn time(&self) -> u64
        ensures value { result ≡ (means self.now).standing.time }
        ensures most { result ≤ 4611686018427387903 }
    {
        self.time
    }

    pub fn is_attached(&self) -> bool
        ensures { result ≡ (means self.now).attached }
    {
        self.attached
    }

    /// Whether this body was sent since the last attach.
    pub fn has_sent(&self, name: &Name, stamp: &Stamp) -> bool
        ensures { result ≡ (means self.now).standing.sent name.now stamp.now }
    {
        self.sent.has(name, stamp)
    }

    /// Raises its time to at least this one.
    pub fn heard(&mut self, time: u64)
        requires { time ≤ 4611686018427387903 }
        ensures { HasHeard (means self.old) (means self.new) time }
    {
        self.time = self.time.max(time);
    }

    /// Attaches it at a start. The bodies sent are forgotten; the number and the time go on.
    pub fn begin(&mut self, start: &Vector)
        ensures { HasBegun (means self.old) (means self.new) start.now }
    {
        self.attached = true;
        self.pos = *start;
        self.sent.clear();
    }

    /// Makes it not attached.
    pub fn detach(&mut self)
        ensures { HasDetached (means self.old) (means self.new) }
    {
        self.attached = false;
    }

    /// Makes room to note one body that is sent. A refusal changes nothing.
    pub fn room(&mut self) -> Result<(), NoMemory>
        ensures ok { OnOk result (0 < (means self.new).room) }
        ensures kept { (means self.old).room ≤ (means self.new).room }
        ensures same { IsSameSession (means self.old) (means self.new) }
    {
        self.sent.reserve()
    }

    /// Notes a message that was sent, which ends at this vector.
    pub fn sent<V: Clocked>(&mut self, to: &V, time: u64)
        requires attached { IsTrue (means self.old).attached }
        requires later { (means self.old).standing.time < time }
        requires most { time ≤ 4611686018427387903 }
        ensures { HasSent (means self.old) (means self.new) (V.clocks to.now) time }
    {
        self.number += 1;
        self.pos.join_in(to);
        self.time = time;
    }

    /// Notes a body that was sent, for which there is room. It takes no memory.
    pub fn sent_body(&mut self, name: &Name, stamp: &Stamp, time: u64)
        requires attached { IsTrue (means self.old).attached }
        requires later { (means self.old).standing.time < time }
        requires most { time ≤ 4611686018427387903 }
        requires room { 0 < (means self.old).room }
        ensures { HasSentBody (means self.old) (means self.new) name.now stamp.now time }
    {
        self.number += 1;
        self.sent.note(name, stamp);
        self.time = time;
    }
}
