// Nodes, streams between them, and the messages that were sent.
ghost use Rattle.pr_inval.specs.Messages.{IsMessage};
ghost use Rattle.std.specs.Prelude.{IfSome};

use crate::tests::call::Call;
use crate::tests::forging::forged;
use crate::tests::frame::Frame;
use crate::tests::site::Site;
use crate::tests::stream::{Link, Stream};
use pr_inval::Msg;
use pr_story::Event;
use pr_vectors::Vector;
use std::alloc::Global;

/// The nodes A, B and C, some streams, what was sent, and what each of two clients has seen.
#[derive(Drop)]
pub struct World {
    pub sites: Vec<Site>,
    pub streams: Vec<Stream>,
    pub sent: Vec<Frame>,
    seen: [Vector; 2],
}

impl World {
    /// Nodes with these sets that have done nothing, and streams that are not attached.
    pub fn new(alloc: Global, texts: &[(&[u8], &[u8])], links: &[Link<'_>]) -> Option<World> {
        let mut world = World {
            sites: Vec::new(alloc),
            streams: Vec::new(alloc),
            sent: Vec::new(alloc),
            seen: [Vector::zero(); 2],
        };
        for (id, texts) in (0..32).zip(texts.iter()) {
            world.sites.push(Site::new(alloc, id, *texts)?).ok()?;
        }
        for (number, link) in (0..64).zip(links.iter()) {
            world.streams.push(Stream::new(alloc, number, link)?).ok()?;
        }
        Some(world)
    }

    pub fn site(&self, node: u32) -> Option<&Site> {
        self.sites.get(node as usize)
    }

    pub fn stream(&self, stream: u32) -> Option<&Stream> {
        self.streams.get(stream as usize)
    }

    fn seen(&self, client: u32) -> Vector {
        self.seen[(client % 2) as usize]
    }

    /// What the client of the call has seen; zero, where it is of no client.
    pub fn needs(&self, call: &Call<'_>) -> Vector {
        match call {
            Call::Write(client, _, _, _) => self.seen(*client),
            Call::Delete(client, _, _) | Call::Read(client, _, _) => self.seen(*client),
            _ => Vector::zero(),
        }
    }

    /// The client has seen what the event tells.
    pub fn note(&mut self, event: &Event) {
        match event {
            Event::Wrote {
                client,
                write,
                after,
                ..
            } => {
                let mut at = after.get();
                at.raise(&write.stamp);
                self.raise(*client, &at);
            }
            Event::Answered { client, at, .. } => self.raise(*client, &at.get()),
            _ => {}
        }
    }

    fn raise(&mut self, client: u32, at: &Vector) {
        let place = (client % 2) as usize;
        self.seen[place] = self.seen[place].join(at);
    }

    /// The node that the call is made of.
    pub fn node_of(&self, call: &Call<'_>) -> Option<u32> {
        match call {
            Call::Write(_, node, _, _) => Some(*node),
            Call::Delete(_, node, _) | Call::Read(_, node, _) => Some(*node),
            Call::Move(_, node) => Some(*node),
            Call::Turn(stream) | Call::Checkpoint(stream) => Some(self.stream(*stream)?.source),
            Call::Attach(stream) => Some(self.stream(*stream)?.destination),
            Call::Missing(stream, _) => Some(self.stream(*stream)?.destination),
            Call::Down(stream, _) => Some(self.stream(*stream)?.destination),
            Call::Accept(node, _, _) | Call::Forged(node, _, _) => Some(*node),
            Call::Cut(node) | Call::State(node) => Some(*node),
            Call::Drop(node, _) | Call::Conflicts(node, _) => Some(*node),
        }
    }

    /// The message that the call gives to a node.
    pub fn message(&self, alloc: Global, call: &Call<'_>) -> Option<Msg>
        ensures { IfSome result IsMessage }
    {
        match call {
            Call::Accept(_, stream, number) => self.frame(*stream, *number)?.message(alloc),
            Call::Forged(_, time, forgery) => forged(alloc, *time, forgery),
            _ => None,
        }
    }

    fn frame(&self, stream: u32, number: u64) -> Option<&Frame> {
        for frame in &self.sent {
            if frame.is(stream, number) {
                return Some(frame);
            }
        }
        None
    }
}
