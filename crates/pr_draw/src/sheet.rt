// What stands in front of the groups.

ghost use Rattle.pr_draw.specs.Pictures.{IsOpening};
ghost use Rattle.pr_draw.specs.Tags.{Adds};
ghost use Rattle.pr_draw.specs.Xml.{IsContent};
ghost use Rattle.std.specs.Prelude.{OnOk};

use crate::grid::Grid;
use crate::symbol::{SYMBOLS, Symbol};
use crate::xml::{attribute, escape, number};
use itoa::Buffer;
use pr_stamps::{Bytes, NoMemory, Seq};
use std::alloc::Global;

// Colors are those that are told apart without color sight too, and each has a shape or a dash of its own.
const STYLE: &[u8] = b"\n\
text{font:11px monospace;fill:#222;stroke:#fff;stroke-width:3px;stroke-linejoin:round;paint-order:stroke}\n\
.number{fill:#777;text-anchor:end}\n\
.name{font-weight:bold;text-anchor:middle}\n\
.warning{fill:#a33a00}\n\
line{stroke:#222;stroke-width:1.4}\n\
.lifeline{stroke:#bbb}\n\
.stream{stroke:#777;marker-end:url(#head)}\n\
.precise{marker-end:url(#head)}\n\
.imprecise{stroke:#a33a00;marker-end:url(#open)}\n\
.checkpoint{stroke-width:4;marker-end:url(#heavy)}\n\
.body{stroke:#0072b2;stroke-dasharray:6 4;marker-end:url(#blue)}\n\
.lost{marker-end:none}\n\
.far{stroke-opacity:.35;stroke-width:1}\n\
.end{stroke-width:2}\n\
path{fill:none;stroke:#222;stroke-width:1.6}\n\
#node,#move,#accept{fill:#222}\n\
#client,#read,#pending,#drop{fill:#fff}\n\
#idle{fill:#999;stroke:none}\n\
#attach{stroke-width:2}\n\
#write,#delete{fill:#0072b2;fill-rule:evenodd;stroke:none}\n\
#read{stroke:#00805c;stroke-width:2.4}\n\
#pending,#cross{stroke:#d55e00;stroke-width:2.4}\n\
#cut,#conflicts{stroke:#8a2a6b;stroke-width:2}\n\
#drop{stroke:#0072b2}\n\
marker path{stroke:none;fill:#222}\n\
#open path{fill:#fff;stroke:#a33a00;stroke-width:1.4}\n\
#blue path{fill:#0072b2}\n";

// The heads of lines, and the size of each.
const HEADS: [(&[u8], u64); 4] = [(b"head", 9), (b"open", 10), (b"heavy", 12), (b"blue", 9)];

/// Adds the style sheet, the definitions of symbols and heads, and the paper, each on lines of its own.
pub fn write_sheet(out: &mut Bytes) -> Result<(), NoMemory>
    ensures { OnOk result (Adds IsContent out.old out.new) }
{
    write_style(out)?;
    write_definitions(out)?;
    write_paper(out)
}

fn write_style(out: &mut Bytes) -> Result<(), NoMemory>
    ensures { OnOk result (Adds IsContent out.old out.new) }
{
    out.extend(b"\n<style>")?;
    escape(STYLE, out)?;
    out.extend(b"</style>\n")
}

fn write_definitions(out: &mut Bytes) -> Result<(), NoMemory>
    ensures { OnOk result (Adds IsContent out.old out.new) }
{
    out.extend(b"\n<defs>")?;
    write_symbols(out)?;
    write_heads(out)?;
    out.extend(b"</defs>\n")
}

fn write_symbols(out: &mut Bytes) -> Result<(), NoMemory>
    ensures { OnOk result (Adds IsContent out.old out.new) }
{
    for symbol in &SYMBOLS {
        write_symbol(*symbol, out)?;
    }
    Ok(())
}

fn write_symbol(symbol: Symbol, out: &mut Bytes) -> Result<(), NoMemory>
    ensures { OnOk result (Adds IsContent out.old out.new) }
{
    out.extend(b"<path")?;
    attribute(b"id", id_of(symbol.href()), out)?;
    attribute(b"d", symbol.outline(), out)?;
    out.extend(b"/>\n")
}

// The name that a reference refers to.
fn id_of(href: &[u8]) -> &[u8] {
    match href {
        [b'#', id @ ..] => id,
        _ => href,
    }
}

fn write_heads(out: &mut Bytes) -> Result<(), NoMemory>
    ensures { OnOk result (Adds IsContent out.old out.new) }
{
    for (id, size) in &HEADS {
        write_head(id, *size, out)?;
    }
    Ok(())
}

fn write_head(id: &[u8], size: u64, out: &mut Bytes) -> Result<(), NoMemory>
    ensures { OnOk result (Adds IsContent out.old out.new) }
{
    out.extend(b"<marker")?;
    attribute(b"id", id, out)?;
    attribute(b"viewBox", b"0 0 10 10", out)?;
    attribute(b"refX", b"9", out)?;
    attribute(b"refY", b"5", out)?;
    number(b"markerWidth", size, out)?;
    number(b"markerHeight", size, out)?;
    attribute(b"markerUnits", b"userSpaceOnUse", out)?;
    attribute(b"orient", b"auto", out)?;
    out.push(b'>')?;
    write_point(out)?;
    out.extend(b"</marker>\n")
}

fn write_point(out: &mut Bytes) -> Result<(), NoMemory>
    ensures { OnOk result (Adds IsContent out.old out.new) }
{
    out.extend(b"<path")?;
    attribute(b"d", b"M1 1L9 5L1 9z", out)?;
    out.extend(b"/>\n")
}

fn write_paper(out: &mut Bytes) -> Result<(), NoMemory>
    ensures { OnOk result (Adds IsContent out.old out.new) }
{
    out.extend(b"<rect")?;
    attribute(b"width", b"100%", out)?;
    attribute(b"height", b"100%", out)?;
    attribute(b"fill", b"#fff", out)?;
    out.extend(b"/>\n")
}

/// Adds the picture's own element, as far as its content.
pub fn write_opening(alloc: Global, grid: &Grid, out: &mut Bytes) -> Result<(), NoMemory>
    ensures { OnOk result (Adds IsOpening out.old out.new) }
{
    let width = grid.width();
    let height = grid.height();
    let view = view_box(alloc, width, height)?;
    out.extend(b"<svg")?;
    attribute(b"xmlns", b"http://www.w3.org/2000/svg", out)?;
    number(b"width", width, out)?;
    number(b"height", height, out)?;
    attribute(b"viewBox", view.as_slice(), out)?;
    out.push(b'>')
}

fn view_box(alloc: Global, width: u64, height: u64) -> Result<Bytes, NoMemory> {
    let mut view = Seq::copied(alloc, b"0 0 ")?;
    let mut buffer = Buffer::new();
    view.extend(buffer.format(width).as_bytes())?;
    view.push(b' ')?;
    view.extend(buffer.format(height).as_bytes())?;
    Ok(view)
}
