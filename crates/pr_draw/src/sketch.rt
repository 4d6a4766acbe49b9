// The shapes of one group.

use crate::font::Font;
use crate::place::Place;
use crate::shape::Shape;
use crate::stroke::Stroke;
use crate::symbol::Symbol;
use crate::way::Way;
use pr_stamps::{NoMemory, Seq};
use std::alloc::Global;

/// Shapes, each drawn over those before it.
#[derive(Drop)]
pub struct Sketch {
    alloc: Global,
    shapes: Seq<Shape>,
}

impl Sketch {
    /// No shapes, which take no memory.
    pub fn new(alloc: Global) -> Sketch {
        Sketch {
            alloc,
            shapes: Seq::new(alloc),
        }
    }

    /// The shapes so far.
    pub fn shapes(&self) -> &[Shape] {
        self.shapes.as_slice()
    }

    pub fn line(
        &mut self,
        stroke: Stroke,
        way: Way,
        from: Place,
        to: Place,
    ) -> Result<(), NoMemory> {
        self.shapes.push(Shape::Line {
            stroke,
            way,
            from,
            to,
        })
    }

    pub fn symbol(&mut self, symbol: Symbol, at: Place) -> Result<(), NoMemory> {
        self.shapes.push(Shape::Symbol { symbol, at })
    }

    /// Writes a copy of the words.
    pub fn label(&mut self, font: Font, at: Place, words: &[u8]) -> Result<(), NoMemory> {
        let words = Seq::copied(self.alloc, words)?;
        self.shapes.push(Shape::Label { font, at, words })
    }

    /// Writes words that fit beside a symbol: of longer ones the beginning, and two points.
    pub fn words(&mut self, font: Font, at: Place, words: &[u8]) -> Result<(), NoMemory> {
        if words.len() <= MOST {
            return self.label(font, at, words);
        }
        let (front, _) = words.split_at(MOST - 2);
        let mut short = Seq::copied(self.alloc, front)?;
        short.extend(b"..")?;
        self.label(font, at, short.as_slice())
    }
}

// The most bytes beside a symbol.
const MOST: usize = 60;
