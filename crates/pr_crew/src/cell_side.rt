// A side of a flow at a node's cell.
ghost use Rattle.pr_cell.specs.Passes.{IsPassOf};
ghost use Rattle.pr_crew.specs.Acting.{IsNodeCell};
ghost use Rattle.pr_crew.specs.Stories.{stories};
ghost use Rattle.std.specs.Prelude.{◌≡◌, ◌<◌, ◌^◌, IfNone, IfSome, None, Some};

use crate::PhaseNode;
use crate::stream_calls::{accept, down, turn};
use pr_cell::{Cell, Pass};
use pr_flow::Side;
use pr_inval::{Msg, NodeFault, Session, Step, Taken};
use pr_story::Cause;
use std::marker::Model;
use std::sync::Wait;

/// The turns that a pass can have, which are more than any phase asks for.
const TURNS: u64 = 1 << 40;

/// A node's cell and a pass of it, as one end of a stream. Each call takes one turn. Behind the last turn of the pass,
/// or without a pass, a call is refused as where there is no memory.
#[derive(Drop)]
pub(crate) struct CellSide<'a, R: Wait> {
    rt: &'a R,
    cell: &'a Cell<PhaseNode>,
    pass: Option<Pass<PhaseNode>>,
}

impl<'a, R: Wait> Model for CellSide<'a, R> {
    ghost use Rattle.pr_crew.specs.Acting.{AtCell, IsNodeCell};
    ghost use Rattle.pr_crew.specs.Stories.{stories};
    ghost use Rattle.pr_cell.specs.Passes.{IsPassOf};
    ghost use Rattle.std.specs.Prelude.{IfSome};

    ghost Value = { AtCell };

    ghost view = { λ s. record { cell = s.cell.now; pass = s.pass } };

    ghost invariant = { λ s. IfSome s.pass (λ p. IsPassOf stories s.cell.now p) × IsNodeCell s.cell.now };
}

impl<'a, R: Wait> CellSide<'a, R> {
    pub(crate) fn new(rt: &'a R, cell: &'a Cell<PhaseNode>, pass: Pass<PhaseNode>) -> Self
        requires pass { IsPassOf stories cell.now pass }
        requires opened { IsNodeCell cell.now }
        ensures { result ≡ record { cell = cell.now; pass = Some pass } }
    {
        CellSide {
            rt,
            cell,
            pass: Some(pass),
        }
    }

    /// The pass, if it was not taken before.
    pub(crate) fn take_pass(&mut self) -> Option<Pass<PhaseNode>>
        ensures taken { result ≡ self.old.pass }
        ensures cell { self.new.cell ≡ self.old.cell }
        ensures pass { IfSome result (λ p. IsPassOf stories self.old.cell p) }
    {
        self.pass.take()
    }

    // The pass where it has turns left.
    fn ready(&mut self) -> Option<Pass<PhaseNode>>
        ensures some { IfSome result (λ p. (self.old.pass ≡ Some p) × IsPassOf stories self.old.cell p × (p.turns < 2 ^ 40)) }
        ensures none { IfNone result (self.new.pass ≡ self.old.pass) }
        ensures cell { self.new.cell ≡ self.old.cell }
    {
        let pass = self.pass.take()?;
        if pass.turns() < TURNS {
            return Some(pass);
        }
        self.pass = Some(pass);
        None
    }
}

impl<'a, R: Wait> Side for CellSide<'a, R> {
    ghost use Rattle.pr_crew.specs.Acting.{acts, made_through};

    ghost made = { made_through };

    ghost act = { acts };

    fn turn(&mut self, session: &mut Session) -> Result<Step, NodeFault> {
        let Some(pass) = self.ready() else {
            return Err(NodeFault::NoMemory);
        };
        let (pass, step) = turn(self.rt, self.cell, pass, session);
        self.pass = Some(pass);
        step
    }

    fn accept(&mut self, msg: Msg) -> Result<Taken, NodeFault> {
        let Some(pass) = self.ready() else {
            return Err(NodeFault::NoMemory);
        };
        let (pass, taken) = accept(self.rt, self.cell, pass, msg);
        self.pass = Some(pass);
        taken
    }

    fn down(&mut self, session: &mut Session, cause: Cause) -> Result<(), NodeFault> {
        let Some(pass) = self.ready() else {
            return Err(NodeFault::NoMemory);
        };
        let (pass, done) = down(self.rt, self.cell, pass, session, cause);
        self.pass = Some(pass);
        done
    }
}
