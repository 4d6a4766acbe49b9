// The groups of head lines.

use crate::font::Font;
use crate::scene::{Scene, nodes};
use crate::sketch::Sketch;
use crate::stroke::Stroke;
use crate::symbol::Symbol;
use crate::way::Way;
use pr_script::Decl;
use pr_stamps::NoMemory;

/// Draws the declaration at this place: a node's lifeline with its names, a client at its node, or a stream between its
/// ends.
pub fn draw_head(
    scene: &Scene<'_>,
    row: usize,
    line: &[u8],
    sketch: &mut Sketch,
) -> Result<(), NoMemory> {
    match scene.decls.get(row) {
        Some(Decl::Node { label, .. }) => {
            draw_node(
                scene,
                nodes(&scene.decls[..row]),
                row,
                label.as_slice(),
                line,
                sketch,
            )
        }
        Some(Decl::Client { node, .. }) => {
            let at = scene.grid.at(*node, row);
            sketch.symbol(Symbol::Client, at)?;
            sketch.words(Font::Words, at.beside(), line)
        }
        Some(Decl::Stream { source, dest, .. }) => {
            let from = scene.grid.at(*source, row);
            sketch.line(Stroke::Stream, Way::Near, from, scene.grid.at(*dest, row))?;
            sketch.words(Font::Words, scene.beside(from, *source, *dest), line)
        }
        None => Ok(()),
    }
}

fn draw_node(
    scene: &Scene<'_>,
    node: u32,
    row: usize,
    label: &[u8],
    line: &[u8],
    sketch: &mut Sketch,
) -> Result<(), NoMemory> {
    let grid = &scene.grid;
    let at = grid.at(node, row);
    sketch.line(
        Stroke::Lifeline,
        Way::Near,
        grid.band(node, 0),
        grid.foot(node),
    )?;
    for band in 0..grid.bands() {
        sketch.label(Font::Name, grid.band(node, band).beyond(0, 4), label)?;
    }
    sketch.symbol(Symbol::Node, at)?;
    sketch.words(Font::Words, at.beside(), line)
}
