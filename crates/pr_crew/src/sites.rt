// The cells of all nodes, while the jobs of a phase share them.
ghost use Rattle.pr_cell.specs.Passes.{HoldsAll, IsPassOf};
ghost use Rattle.pr_crew.specs.Making.{IsCellOf, NodeCell, NodePass};
ghost use Rattle.pr_crew.specs.Sites.{CanClose, CanJoin, CanSplit, HasOpened, IsBeside, IsClosed, IsHere, IsOpened, IsSite, Joins, Splits};
ghost use Rattle.pr_crew.specs.Stories.{stories};
ghost use Rattle.pr_node.specs.Stored.{Stored};
ghost use Rattle.pr_story.specs.Counts.{Declared};
ghost use Rattle.pr_story.specs.History.{NodeEntry, Plan};
ghost use Rattle.std.specs.Prelude.{◌≡◌, ◌<◌, ◌≤◌, ℕ, List, IfOk, None, OnErr, OnOk, Some, get_or, length, slice_get, slice_set, vec_capacity, vec_len};

use crate::PhaseNode;
use pr_cell::{Cell, Pass};
use pr_merge::Held;
use pr_node::Node;
use pr_stamps::NoMemory;
use std::alloc::Global;

/// The cell of each node, and the pass of it that the phase itself keeps.
#[derive(Drop)]
pub(crate) struct Sites {
    pub(crate) cells: Vec<Cell<PhaseNode>>,
    pub(crate) roots: Vec<Option<Pass<PhaseNode>>>,
}

impl Sites {
    /// Moves so many nodes into cells of so many callers. It takes two blocks of memory for each node, and two for all; where
    /// there is none, all nodes are given back.
    pub(crate) fn open<H: Held<Node = Node>>(
        alloc: Global,
        held: &mut H,
        count: u32,
        callers: u32,
    ) -> Result<Sites, NoMemory>
        requires here { (plan : Plan) × (h : List NodeEntry) × ((n : ℕ) → n < count → IsHere plan h (H.state held.old) n) }
        requires all { count ≡ length (H.state held.old).nodes }
        requires callers { (1 ≤ callers) × (callers ≤ 65) }
        requires few { count ≤ 32 }
        ensures many { IfOk result (λ s. (length s.cells.items ≡ count) × (length s.roots.items ≡ count)) }
        ensures opened { (plan : Plan) (h : List NodeEntry) → ((n : ℕ) → n < count → IsHere plan h (H.state held.old) n) → IfOk result (λ s. (n : ℕ) → n < count → IsOpened plan h callers s n) }
        ensures out { IfOk result (λ s. (n : ℕ) → n < count → get_or (H.state held.new).nodes n None ≡ None) }
        ensures back { (plan : Plan) (h : List NodeEntry) → ((n : ℕ) → n < count → IsHere plan h (H.state held.old) n) → OnErr result ((n : ℕ) → n < count → IsHere plan h (H.state held.new) n) }
        ensures beside { IsBeside (H.state held.old) (H.state held.new) }
        ensures records { (d : Declared) (h : List NodeEntry) → H.records held.old d h → H.records held.new d h }
        ensures room { (n : ℕ) → H.has_room held.old n → H.has_room held.new n }
    {
        let mut sites = Sites {
            cells: Vec::with_capacity(alloc, count as usize)?,
            roots: Vec::with_capacity(alloc, count as usize)?,
        };
        for node in 0..count {
            match sites.open_one(alloc, held, node, callers) {
                Ok(()) => {}
                Err(_) => {
                    sites.close(held);
                    return Err(NoMemory);
                }
            }
        }
        Ok(sites)
    }

    // Moves a node into the next cell. Where there is no memory, it is given back.
    fn open_one<H: Held<Node = Node>>(
        &mut self,
        alloc: Global,
        held: &mut H,
        node: u32,
        callers: u32,
    ) -> Result<(), NoMemory>
        requires here { (node < length (H.state held.old).nodes) × ((m : Stored) × (get_or (H.state held.old).nodes node None ≡ Some m)) }
        requires callers { (1 ≤ callers) × (callers ≤ 65) }
        requires cells { vec_len self.old.cells < vec_capacity self.old.cells }
        requires roots { vec_len self.old.roots < vec_capacity self.old.roots }
        ensures opened { (m : Stored) → get_or (H.state held.old).nodes node None ≡ Some m → OnOk result (HasOpened callers m self.old self.new) }
        ensures out { OnOk result ((H.state held.new).nodes ≡ slice_set (H.state held.old).nodes node None) }
        ensures refused { OnErr result ((self.new ≡ self.old) × ((H.state held.new).nodes ≡ (H.state held.old).nodes)) }
        ensures cells { vec_capacity self.old.cells ≤ vec_capacity self.new.cells }
        ensures roots { vec_capacity self.old.roots ≤ vec_capacity self.new.roots }
        ensures beside { IsBeside (H.state held.old) (H.state held.new) }
        ensures records { (d : Declared) (h : List NodeEntry) → H.records held.old d h → H.records held.new d h }
        ensures room { (n : ℕ) → H.has_room held.old n → H.has_room held.new n }
    {
        let Some(value) = held.take_node(node) else {
            unreachable!()
        };
        match Cell::new(alloc, PhaseNode::new(value), callers) {
            Ok((cell, root)) => {
                self.cells.push_reserved(cell);
                self.roots.push_reserved(Some(root));
                Ok(())
            }
            Err(refused) => {
                held.give_node(node, refused.value.into_node());
                Err(NoMemory)
            }
        }
    }

    /// A pass of a node's cell for a job.
    pub(crate) fn split(&mut self, node: u32) -> Option<Pass<PhaseNode>>
        requires { CanSplit self.old node }
        ensures splits { Splits self.old self.new node result }
        ensures cells { self.new.cells ≡ self.old.cells }
    {
        let at = node as usize;
        let mut root = self.take_root(at);
        let pass = self.cells[at].split(&mut root);
        self.put_root(at, root);
        Some(pass)
    }

    /// Takes a job's pass of a node's cell back.
    pub(crate) fn join(&mut self, node: u32, pass: Option<Pass<PhaseNode>>)
        requires { CanJoin self.old node pass }
        ensures joins { Joins self.old self.new node pass }
        ensures cells { self.new.cells ≡ self.old.cells }
    {
        let Some(pass) = pass else { unreachable!() };
        let at = node as usize;
        let root = self.take_root(at);
        let root = self.cells[at].join_pass(root, pass);
        self.put_root(at, root);
    }

    // The phase's own pass of a node's cell, while it is worked with.
    fn take_root(&mut self, at: usize) -> Pass<PhaseNode>
        requires { (p : NodePass) × (slice_get self.old.roots.items at ≡ Some (Some p)) }
        ensures root { slice_get self.old.roots.items at ≡ Some (Some result) }
        ensures roots { self.new.roots.items ≡ slice_set self.old.roots.items at None }
        ensures cells { self.new.cells ≡ self.old.cells }
    {
        match self.roots[at].take() {
            Some(root) => root,
            None => unreachable!(),
        }
    }

    // Puts it back.
    fn put_root(&mut self, at: usize, root: Pass<PhaseNode>)
        requires { at < length self.old.roots.items }
        ensures roots { self.new.roots.items ≡ slice_set self.old.roots.items at (Some root) }
        ensures cells { self.new.cells ≡ self.old.cells }
    {
        self.roots[at] = Some(root);
    }

    /// Gives all nodes back, with what they have made. Linear in the nodes.
    pub(crate) fn close<H: Held<Node = Node>>(mut self, held: &mut H)
        requires sites { (n : ℕ) → n < length self.cells.items → CanClose self n }
        requires slots { length self.cells.items ≤ length (H.state held.old).nodes }
        requires out { (n : ℕ) → n < length self.cells.items → get_or (H.state held.old).nodes n None ≡ None }
        ensures closed { (plan : Plan) (h : List NodeEntry) (n : ℕ) (c : NodeCell) (p : NodePass) → IsSite self n c p → IsCellOf plan h n c → (m : Stored) × (get_or (H.state held.new).nodes n None ≡ Some m) × IsClosed plan h n p m }
        ensures behind { (n : ℕ) → length self.cells.items ≤ n → get_or (H.state held.new).nodes n None ≡ get_or (H.state held.old).nodes n None }
        ensures beside { IsBeside (H.state held.old) (H.state held.new) }
        ensures records { (d : Declared) (h : List NodeEntry) → H.records held.old d h → H.records held.new d h }
        ensures room { (n : ℕ) → H.has_room held.old n → H.has_room held.new n }
    {
        while let Some(cell) = self.cells.pop() {
            let at = self.cells.len();
            let root = self.take_root(at);
            close_one(held, at as u32, cell, root);
        }
    }
}

// Gives a node back, with what it has made.
fn close_one<H: Held<Node = Node>>(
    held: &mut H,
    node: u32,
    cell: Cell<PhaseNode>,
    root: Pass<PhaseNode>,
)
    requires pass { IsPassOf stories cell root × HoldsAll root }
    requires slot { (node < length (H.state held.old).nodes) × (get_or (H.state held.old).nodes node None ≡ None) }
    ensures closed { (m : Stored) × ((H.state held.new).nodes ≡ slice_set (H.state held.old).nodes node (Some m)) × ((plan : Plan) (h : List NodeEntry) → IsCellOf plan h node cell → IsClosed plan h node root m) }
    ensures beside { IsBeside (H.state held.old) (H.state held.new) }
    ensures records { (d : Declared) (h : List NodeEntry) → H.records held.old d h → H.records held.new d h }
    ensures room { (n : ℕ) → H.has_room held.old n → H.has_room held.new n }
{
    held.give_node(node, cell.close(root).into_node());
}
