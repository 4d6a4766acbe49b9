// The picture of a transcript.
ghost use Rattle.pr_draw.specs.Pictures.{HasGroups, HasPicture};
ghost use Rattle.pr_draw.specs.Tags.{Adds};
ghost use Rattle.pr_draw.specs.Xml.{IsContent, IsDocument};
ghost use Rattle.std.specs.Prelude.{IfOk, OnOk};

use crate::events::draw_event;
use crate::font::Font;
use crate::group::{write_group, write_shapes};
use crate::heads::draw_head;
use crate::legend::draw_legend;
use crate::lines::split_line;
use crate::scene::Scene;
use crate::sheet::{write_opening, write_sheet};
use crate::sketch::Sketch;
use crate::stroke::Stroke;
use crate::way::Way;
use itoa::Buffer;
use pr_check::Transcript;
use pr_stamps::{Bytes, NoMemory, Seq};
use std::alloc::Global;

/// The picture of a transcript, whose text this is, as an SVG: a lifeline for each node, and a group for each line, the
/// rows downwards in the order of the lines. It takes time linear in the text, and for each head line in those before it.
pub fn picture_of(alloc: Global, transcript: &Transcript, text: &[u8]) -> Result<Bytes, NoMemory>
    ensures picture { IfOk result (HasPicture text.now) }
    ensures document { IfOk result IsDocument }
{
    let scene = Scene::new(alloc, transcript)?;
    let mut out = Seq::new(alloc);
    write_opening(alloc, &scene.grid, &mut out)?;
    write_sheet(&mut out)?;
    write_legend(alloc, &mut out)?;
    write_groups(alloc, &scene, text, &mut out)?;
    out.extend(b"</svg>\n")?;
    Ok(out)
}

fn write_legend(alloc: Global, out: &mut Bytes) -> Result<(), NoMemory>
    ensures { OnOk result (Adds IsContent out.old out.new) }
{
    let mut sketch = Sketch::new(alloc);
    draw_legend(&mut sketch)?;
    write_shapes(sketch.shapes(), out)?;
    out.push(b'\n')
}

// Adds the groups of all lines that have an end.
fn write_groups(
    alloc: Global,
    scene: &Scene<'_>,
    text: &[u8],
    out: &mut Bytes,
) -> Result<(), NoMemory>
    ensures { OnOk result (Adds (HasGroups text.now) out.old out.new) }
{
    let mut rest = text;
    let mut row = 0usize;
    while let Some((line, more)) = split_line(rest) {
        let sketch = draw_line(alloc, scene, row, line)?;
        write_group(line, sketch.shapes(), out)?;
        rest = more;
        row = row.saturating_add(1);
    }
    Ok(())
}

// The shapes of the line in this row, with its number.
fn draw_line(
    alloc: Global,
    scene: &Scene<'_>,
    row: usize,
    line: &[u8],
) -> Result<Sketch, NoMemory> {
    let mut sketch = Sketch::new(alloc);
    let heads = scene.decls.len();
    if row < heads {
        draw_head(scene, row, line, &mut sketch)?;
    } else if row - heads < scene.engine.history().len() {
        draw_event(scene, row - heads, line, &mut sketch)?;
    } else {
        draw_end(scene, row, line, &mut sketch)?;
    }
    draw_number(scene, row, &mut sketch)?;
    Ok(sketch)
}

fn draw_number(scene: &Scene<'_>, row: usize, sketch: &mut Sketch) -> Result<(), NoMemory> {
    let mut at = scene.grid.at(0, row).beyond(0, 4);
    at.x = 48;
    let mut buffer = Buffer::new();
    let number = (row as u64).saturating_add(1);
    sketch.label(Font::Number, at, buffer.format(number).as_bytes())
}

// Draws the last line, under all lifelines.
fn draw_end(
    scene: &Scene<'_>,
    row: usize,
    line: &[u8],
    sketch: &mut Sketch,
) -> Result<(), NoMemory> {
    let from = scene.grid.at(0, row);
    let mut to = from;
    to.x = scene.grid.width().saturating_sub(24);
    sketch.line(Stroke::End, Way::Near, from.above(8), to.above(8))?;
    sketch.words(Font::Words, from.beside().beyond(0, 3), line)
}
