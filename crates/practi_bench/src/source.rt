// A node, and a stream that it is the source of.
ghost use Rattle.pr_inval.specs.Standing as Standing;
ghost use Rattle.pr_node.specs.Grammar.{IsStepSpelled};
ghost use Rattle.std.specs.Prelude.{IfOk, IsTrue};

use crate::failed::Failed;
use crate::starting::{CALLER, CLIENT};
use pr_inval::{NodeFault, Session, Step};
use pr_names::Name;
use pr_node::{Node, Scan};
use pr_stamps::MAX;
use pr_vectors::Vector;
use std::alloc::Global;
use std::marker::Model;

/// A node with the session of a stream that is attached, and how far it has looked for bodies to send.
#[derive(Drop)]
pub struct Source {
    node: Node,
    session: Session,
    scan: Scan,
}

impl Model for Source {
    ghost use Rattle.pr_inval.specs.Standing as Standing;
    ghost use Rattle.pr_inval.specs.Standing.{Remembered};
    ghost use Rattle.pr_node.specs.Scanning.{IsScanOf};
    ghost use Rattle.pr_node.specs.Stored.{means};
    ghost use Rattle.std.specs.Prelude.{IsTrue};

    ghost Value = { Remembered };

    ghost view = { λ s. s.session };

    ghost invariant = { λ s. IsTrue s.session.attached × IsScanOf s.scan (Standing.means s.session).standing (means s.node).journal };
}

impl Source {
    pub fn new(alloc: Global, node: Node, session: Session) -> Source
        requires { IsTrue (Standing.means session).attached }
    {
        Source {
            node,
            session,
            scan: Scan::new(alloc),
        }
    }

    /// A write of these bytes.
    pub fn write(&mut self, name: &Name) -> Result<(), Failed> {
        let _ = self
            .node
            .write(CALLER, CLIENT, name, b"0123456789", &Vector::zero())?;
        Ok(())
    }

    /// A turn of the stream. What it answers is handed on as it is, so that nothing but the node's call is measured.
    pub fn turn(&mut self) -> Result<Step, NodeFault>
        ensures { IfOk result IsStepSpelled }
    {
        self.node
            .turn_from(CALLER, &mut self.session, &mut self.scan)
    }

    /// The stream's destination made an event at this time.
    pub fn heard(&mut self, time: u64) {
        self.session.heard(time.min(MAX));
    }

    /// How many entries the node's journal has.
    pub fn entries(&self) -> usize {
        self.node.journal().len()
    }
}
