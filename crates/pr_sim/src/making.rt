// An engine of declarations.
ghost use Rattle.pr_sets.specs.Sets.{AreApart};
ghost use Rattle.pr_script.specs.Good.{AreGoodDecls};
ghost use Rattle.pr_script.specs.declared.decl.Decl.{Decl};
ghost use Rattle.pr_script.specs.declared.decl.Decl.TheVariants as decls;
ghost use Rattle.pr_sim.specs.Making.{HasRoom, IsMadeOf, declared_of};
ghost use Rattle.pr_sim.specs.Running.{IsRunning};
ghost use Rattle.std.specs.Prelude.{◌≡◌, ◌<◌, [], ◌∷◌, ◌++◌, IfOk, List, OnOk, false, length, ℕ};

use crate::engine::{Engine, Route};
use pr_inval::Session;
use pr_node::{Node, Scan};
use pr_script::{Decl, Decls};
use pr_sets::NameSet;
use pr_stamps::{NoMemory, Roomy, Seq};
use pr_vectors::Vector;
use std::alloc::Global;

impl Engine {
    /// The engine of these declarations, which has done nothing: each client stands at its node, and no stream is
    /// attached. It takes time linear in the declarations, and for each node in its sets' intervals for each of its sets.
    pub fn new(alloc: Global, decls: &Decls) -> Result<Engine, NoMemory>
        requires good { AreGoodDecls decls.now.list }
        ensures { IfOk result (λ e. IsRunning (declared_of decls.now.list) (λ s. false) [] e) }
    {
        let mut engine = Engine::empty(alloc);
        for decl in decls.as_slice() {
            engine.declare(decl)?;
        }
        Ok(engine)
    }

    fn empty(alloc: Global) -> Engine
        ensures { IsMadeOf [] result }
    {
        Engine {
            alloc,
            nodes: Vec::new(alloc),
            sessions: Vec::new(alloc),
            routes: Vec::new(alloc),
            sent: Vec::new(alloc),
            scans: Vec::new(alloc),
            homes: Vec::new(alloc),
            seen: Vec::new(alloc),
            history: Roomy::new(alloc),
        }
    }

    fn declare(&mut self, decl: &Decl) -> Result<(), NoMemory>
        requires room { HasRoom self.old decl.now }
        ensures { OnOk result ((ds : List Decl) → IsMadeOf ds self.old → IsMadeOf (ds ++ decl.now ∷ []) self.new) }
    {
        match decl {
            Decl::Node { sets, .. } => self.add_node(sets.as_slice()),
            Decl::Client { node, .. } => self.add_client(*node),
            Decl::Stream {
                source,
                dest,
                sub,
                bodies,
                ..
            } => {
                let route = Route {
                    source: *source,
                    destination: *dest,
                };
                self.add_stream(route, sub, *bodies)
            }
        }
    }

    fn add_node(&mut self, sets: &[NameSet]) -> Result<(), NoMemory>
        requires few { length self.old.nodes.items < 32 }
        requires apart { AreApart sets.now }
        ensures { OnOk result ((ds : List Decl) (label : List ℕ) → IsMadeOf ds self.old → IsMadeOf (ds ++ decls.Node label sets.now ∷ []) self.new) }
    {
        let sets = copied_sets(self.alloc, sets)?;
        let node = Node::new(self.alloc, self.nodes.len() as u32, sets)?;
        self.nodes.push(Some(node))?;
        Ok(())
    }

    fn add_client(&mut self, node: u32) -> Result<(), NoMemory>
        ensures { OnOk result ((ds : List Decl) (label : List ℕ) → IsMadeOf ds self.old → IsMadeOf (ds ++ decls.Client label node ∷ []) self.new) }
    {
        self.homes.push(node)?;
        self.seen.push(Vector::zero())?;
        Ok(())
    }

    fn add_stream(&mut self, route: Route, sub: &NameSet, bodies: bool) -> Result<(), NoMemory>
        requires few { length self.old.sessions.items < 64 }
        requires some { 0 < length sub.now }
        ensures { OnOk result ((ds : List Decl) (label : List ℕ) → IsMadeOf ds self.old → IsMadeOf (ds ++ decls.Stream label route.source route.destination sub.now bodies ∷ []) self.new) }
    {
        let sub = sub.copy(self.alloc)?;
        let session = Session::new(self.alloc, self.sessions.len() as u32, sub, bodies);
        self.sessions.push(Some(session))?;
        self.routes.push(route)?;
        self.sent.push(Roomy::new(self.alloc))?;
        self.scans.push(Scan::new(self.alloc))?;
        Ok(())
    }
}

/// A copy of these sets, in time linear in their intervals.
pub fn copied_sets(alloc: Global, sets: &[NameSet]) -> Result<Seq<NameSet>, NoMemory>
    ensures { IfOk result (λ copies. copies ≡ sets.now) }
{
    let mut copies = Seq::new(alloc);
    for set in sets {
        copies.push(set.copy(alloc)?)?;
    }
    Ok(copies)
}
