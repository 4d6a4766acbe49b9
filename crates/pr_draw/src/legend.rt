// The legend.

use crate::font::Font;
use crate::place::Place;
use crate::sketch::Sketch;
use crate::stroke::Stroke;
use crate::symbol::Symbol;
use crate::way::Way;
use pr_stamps::NoMemory;

// Lines and what they stand for.
const LINES: [(Stroke, Way, &[u8]); 7] = [
    (Stroke::Precise, Way::Near, b"precise invalidation"),
    (Stroke::Imprecise, Way::Near, b"imprecise, with its target"),
    (Stroke::Checkpoint, Way::Near, b"checkpoint"),
    (Stroke::Body, Way::Near, b"body"),
    (Stroke::Precise, Way::Lost, b"lost or refused"),
    (Stroke::Precise, Way::Far, b"over many rows"),
    (Stroke::Stream, Way::Near, b"declared stream"),
];

// Symbols and what they stand for, in two columns.
const FIRST: [(Symbol, &[u8]); 7] = [
    (Symbol::Node, b"declared node"),
    (Symbol::Client, b"declared client"),
    (Symbol::Write, b"write"),
    (Symbol::Delete, b"delete"),
    (Symbol::Read, b"read, answered"),
    (Symbol::Pending, b"no answer yet"),
    (Symbol::Move, b"client moves"),
];

const SECOND: [(Symbol, &[u8]); 7] = [
    (Symbol::Attach, b"stream begins"),
    (Symbol::Idle, b"nothing to send"),
    (Symbol::Accept, b"message taken"),
    (Symbol::Cut, b"log truncated"),
    (Symbol::Drop, b"bodies dropped"),
    (Symbol::Conflicts, b"conflicts"),
    (Symbol::State, b"vectors"),
];

const ROW: u64 = 22;

/// Draws the legend, at the top of the picture.
pub fn draw_legend(sketch: &mut Sketch) -> Result<(), NoMemory> {
    for (row, (stroke, way, words)) in LINES.iter().enumerate() {
        draw_stroke(*stroke, *way, place_of(0, row), words, sketch)?;
    }
    for (row, (symbol, words)) in FIRST.iter().enumerate() {
        draw_symbol(*symbol, place_of(280, row), words, sketch)?;
    }
    for (row, (symbol, words)) in SECOND.iter().enumerate() {
        draw_symbol(*symbol, place_of(430, row), words, sketch)?;
    }
    Ok(())
}

// Where an entry of a column stands.
fn place_of(right: u64, row: usize) -> Place {
    Place { x: 20, y: 22 }.beyond(right, ROW.saturating_mul(row as u64))
}

fn draw_stroke(
    stroke: Stroke,
    way: Way,
    at: Place,
    words: &[u8],
    sketch: &mut Sketch,
) -> Result<(), NoMemory> {
    let end = at.beyond(44, 0);
    sketch.line(stroke, way, at, end)?;
    if way == Way::Lost {
        sketch.symbol(Symbol::Cross, end)?;
    }
    sketch.label(Font::Words, end.beside(), words)
}

fn draw_symbol(
    symbol: Symbol,
    at: Place,
    words: &[u8],
    sketch: &mut Sketch,
) -> Result<(), NoMemory> {
    sketch.symbol(symbol, at)?;
    sketch.label(Font::Words, at.beyond(16, 4), words)
}
