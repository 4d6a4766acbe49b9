// What is drawn, and where.

use crate::flights::Flights;
use crate::grid::Grid;
use crate::place::Place;
use pr_check::Transcript;
use pr_script::{Decl, Kind, is_kind};
use pr_sim::Engine;
use pr_stamps::{NoMemory, Seq};
use std::alloc::Global;

/// The ends of a stream.
#[derive(Clone, Copy)]
pub struct Route {
    pub source: u32,
    pub dest: u32,
}

/// A transcript's declarations and history, and where its lines stand.
#[derive(Drop)]
pub struct Scene<'a> {
    pub decls: &'a [Decl],
    pub engine: &'a Engine,
    pub grid: Grid,
    pub flights: Flights,
    routes: Seq<Route>,
}

impl<'a> Scene<'a> {
    /// The scene of a transcript, in time linear in its lines.
    pub fn new(alloc: Global, transcript: &'a Transcript) -> Result<Scene<'a>, NoMemory> {
        let decls = transcript.decls.as_slice();
        let engine = &transcript.engine;
        let routes = routes(alloc, decls)?;
        let flights = Flights::new(alloc, routes.len(), engine)?;
        let rows = decls
            .len()
            .saturating_add(engine.history().len())
            .saturating_add(1);
        Ok(Scene {
            decls,
            engine,
            grid: Grid::new(nodes(decls), rows),
            flights,
            routes,
        })
    }

    /// Where the row of the entry at this place of the history crosses the node's lifeline.
    pub fn place(&self, node: u32, at: usize) -> Place {
        self.grid.at(node, self.decls.len().saturating_add(at))
    }

    /// Where words stand beside a line that begins at this place: over it, where it goes to the right.
    pub fn beside(&self, from: Place, source: u32, dest: u32) -> Place {
        if source < dest {
            from.beside().above(8)
        } else {
            from.beside()
        }
    }

    /// The ends of the stream.
    pub fn route(&self, stream: u32) -> Option<Route> {
        self.routes.as_slice().get(stream as usize).copied()
    }
}

fn routes(alloc: Global, decls: &[Decl]) -> Result<Seq<Route>, NoMemory> {
    let mut routes = Seq::new(alloc);
    for decl in decls {
        if let Decl::Stream { source, dest, .. } = decl {
            routes.push(Route {
                source: *source,
                dest: *dest,
            })?;
        }
    }
    Ok(routes)
}

/// How many nodes are declared.
pub fn nodes(decls: &[Decl]) -> u32 {
    let mut nodes = 0u32;
    for decl in decls {
        if is_kind(Kind::Node, decl) {
            nodes = nodes.saturating_add(1);
        }
    }
    nodes
}
