// A node that knows names.

use crate::ask::Ask;
use crate::failed::Failed;
use crate::naming::name;
use crate::starting::{CALLER, CLIENT, node};
use crate::writers::Writers;
use pr_node::Node;
use pr_vectors::Vector;
use std::alloc::Global;

/// What a node is told of a write: its precise invalidation; its body too; or no more than that it may be.
#[derive(Clone, Copy)]
pub enum Knowing {
    Writes,
    Bodies,
    Hints,
}

/// A node, and the writers that it hears of.
#[derive(Drop)]
pub struct Known {
    alloc: Global,
    node: Node,
    writers: Writers,
}

impl Known {
    /// A node that was told so of one write to each name.
    pub fn new(alloc: Global, knowing: Knowing, ask: &Ask) -> Result<Known, Failed> {
        let mut known = Known {
            alloc,
            node: node(alloc, 0)?,
            writers: Writers::new(ask.writers, ask.names),
        };
        known.tell_of(ask.names, knowing)?;
        Ok(known)
    }

    fn tell_of(&mut self, count: u32, knowing: Knowing) -> Result<(), Failed> {
        for _ in 0..count {
            self.tell(knowing)?;
        }
        Ok(())
    }

    /// Tells the node of the next write.
    pub fn tell(&mut self, knowing: Knowing) -> Result<(), Failed> {
        match knowing {
            Knowing::Writes => self.accept_write(),
            Knowing::Bodies => self.accept_body(),
            Knowing::Hints => self.accept_hint(),
        }
    }

    fn accept_write(&mut self) -> Result<(), Failed> {
        let msg = self.writers.precise(self.alloc)?;
        drop(self.node.accept(CALLER, msg)?);
        Ok(())
    }

    fn accept_body(&mut self) -> Result<(), Failed> {
        self.accept_write()?;
        let msg = self.writers.body(self.alloc)?;
        drop(self.node.accept(CALLER, msg)?);
        Ok(())
    }

    fn accept_hint(&mut self) -> Result<(), Failed> {
        let msg = self.writers.imprecise(self.alloc)?;
        drop(self.node.accept(CALLER, msg)?);
        Ok(())
    }

    /// A write of its own.
    pub fn write(&mut self, name_number: u32) -> Result<(), Failed> {
        let name = name(b'n', name_number)?;
        let _ = self
            .node
            .write(CALLER, CLIENT, &name, b"0123456789", &Vector::zero())?;
        Ok(())
    }

    pub fn read(&mut self, name_number: u32) -> Result<(), Failed> {
        let name = name(b'n', name_number)?;
        let _ = self.node.read(CALLER, CLIENT, &name, &Vector::zero())?;
        Ok(())
    }

    /// A write and a cut.
    pub fn cut(&mut self, name_number: u32) -> Result<(), Failed> {
        self.write(name_number)?;
        let _ = self.node.cut(CALLER)?;
        Ok(())
    }

    /// The node alone.
    pub fn into_node(self) -> Node {
        let Known {
            alloc: _,
            node,
            writers: _,
        } = self;
        node
    }

    /// How many entries the node's journal has.
    pub fn entries(&self) -> usize {
        self.node.journal().len()
    }
}
