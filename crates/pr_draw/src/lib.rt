//! The picture of a transcript, as an SVG: a lifeline for each node, and a group for each line.
#![tactic(auto)]

mod drawing;
mod entries;
mod events;
mod fields;
mod flights;
mod font;
mod grid;
mod group;
mod heads;
mod legend;
mod lines;
mod picture;
mod place;
mod reading;
mod scene;
mod shape;
mod sheet;
mod sketch;
mod stroke;
mod symbol;
#[cfg(test)]
mod tests;
mod way;
mod xml;

pub use drawing::draw;
pub use picture::picture_of;
