// Where lifelines and rows stand.

use crate::place::Place;

// The first lifeline, the way from one to the next, and the room for labels behind the last.
const LEFT: u64 = 76;

const APART: u64 = 220;

const RIGHT: u64 = 424;

// What stands above the rows: the legend.
const TOP: u64 = 202;

// The height of a row, and how many rows stand between two bands, which have the names of the nodes.
const ROW: u64 = 26;

const BAND: usize = 40;

// The least width, for the legend.
const LEAST_WIDTH: u64 = 620;

/// A picture of so many lifelines and rows. A row is as high as a band, and a band stands above each forty rows.
#[derive(Clone, Copy)]
pub struct Grid {
    nodes: u32,
    rows: usize,
}

impl Grid {
    pub fn new(nodes: u32, rows: usize) -> Grid {
        Grid { nodes, rows }
    }

    /// Where the row crosses the node's lifeline.
    pub fn at(&self, node: u32, row: usize) -> Place {
        let below = row.saturating_add(row / BAND).saturating_add(1);
        Place {
            x: x_of(node),
            y: y_of(below),
        }
    }

    /// How many bands there are.
    pub fn bands(&self) -> usize {
        (self.rows / BAND).saturating_add(1)
    }

    /// Where a band crosses the node's lifeline.
    pub fn band(&self, node: u32, band: usize) -> Place {
        Place {
            x: x_of(node),
            y: y_of(band.saturating_mul(BAND + 1)),
        }
    }

    /// The end of the node's lifeline.
    pub fn foot(&self, node: u32) -> Place {
        self.at(node, self.rows)
    }

    pub fn width(&self) -> u64 {
        x_of(self.nodes.saturating_sub(1))
            .saturating_add(RIGHT)
            .max(LEAST_WIDTH)
    }

    pub fn height(&self) -> u64 {
        self.foot(0).y.saturating_add(ROW / 2)
    }
}

fn x_of(node: u32) -> u64 {
    LEFT + APART * u64::from(node)
}

fn y_of(below: usize) -> u64 {
    (below as u64).saturating_mul(ROW).saturating_add(TOP)
}
