// Two nodes.
ghost use Rattle.pr_inval.specs.Messages.{IsMessage};

use crate::coding::Coding;
use crate::failed::Failed;
use crate::source::Source;
use crate::starting::{CALLER, CLIENT, node, session};
use pr_inval::{Msg, Step, Taken};
use pr_names::Name;
use pr_node::Node;
use pr_sets::NameSet;
use pr_vectors::Vector;
use pr_wire::Next;
use std::alloc::Global;

/// A node that writes, one that takes what a stream from the first sends, and bytes between them.
#[derive(Drop)]
pub struct Pair {
    source: Source,
    destination: Node,
    coding: Coding,
}

impl Pair {
    /// Two nodes, and an attached stream of these names.
    pub fn new(alloc: Global, names: NameSet, bodies: bool) -> Result<Pair, Failed> {
        let mut destination = node(alloc, 1)?;
        let source = source(alloc, names, bodies, &mut destination)?;
        Ok(Pair {
            source,
            destination,
            coding: Coding::new(alloc),
        })
    }

    /// A write at the source.
    pub fn write(&mut self, name: &Name) -> Result<(), Failed> {
        self.source.write(name)
    }

    /// A turn, and an accept of what it sends.
    pub fn pass(&mut self) -> Result<(), Failed> {
        match self.source.turn()? {
            Step::Sent(msg) => self.take(msg),
            Step::Idle | Step::Stale { .. } => Ok(()),
        }
    }

    /// The same, over bytes.
    pub fn pass_coded(&mut self) -> Result<(), Failed> {
        match self.source.turn()? {
            Step::Sent(msg) => self.take_coded(&msg),
            Step::Idle | Step::Stale { .. } => Ok(()),
        }
    }

    fn take_coded(&mut self, msg: &Msg) -> Result<(), Failed>
        requires { IsMessage msg.now }
    {
        self.coding.put(msg)?;
        match self.coding.feed.next()? {
            Next::Message(msg) => self.take(msg),
            Next::More | Next::Bad { .. } => Err(Failed),
        }
    }

    fn take(&mut self, msg: Msg) -> Result<(), Failed>
        requires { IsMessage msg }
    {
        let taken = self.destination.accept(CALLER, msg)?;
        match &taken {
            Taken::Accepted { time } => {
                self.source.heard(*time);
                drop(taken);
                Ok(())
            }
            Taken::Gap { .. } => {
                drop(taken);
                Err(Failed)
            }
        }
    }

    /// A read at the destination.
    pub fn read(&mut self, name: &Name) -> Result<(), Failed> {
        let _ = self
            .destination
            .read(CALLER, CLIENT, name, &Vector::zero())?;
        Ok(())
    }

    /// How many entries the journals of both have.
    pub fn entries(&self) -> usize {
        let made = self.source.entries();
        made.saturating_add(self.destination.journal().len())
    }
}

// The source of a stream that this node attaches.
fn source(
    alloc: Global,
    names: NameSet,
    bodies: bool,
    destination: &mut Node,
) -> Result<Source, Failed> {
    let mut session = session(alloc, names, bodies)?;
    let _ = destination.attach(CALLER, &mut session)?;
    Ok(Source::new(alloc, node(alloc, 0)?, session))
}
