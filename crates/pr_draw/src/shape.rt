// What a group is made of.

ghost use Rattle.pr_draw.specs.Tags.{Adds, label_text, line_text, symbol_text};
ghost use Rattle.pr_draw.specs.Xml.{IsContent};
ghost use Rattle.std.specs.Prelude.{◌≡◌, ◌++◌, OnOk};

use crate::font::Font;
use crate::place::Place;
use crate::stroke::Stroke;
use crate::symbol::Symbol;
use crate::way::Way;
use crate::xml::{attribute, escape, number, two_words};
use pr_stamps::{Bytes, NoMemory};

/// A line, a symbol or a label.
#[derive(Drop)]
pub enum Shape {
    Line {
        stroke: Stroke,
        way: Way,
        from: Place,
        to: Place,
    },
    Symbol {
        symbol: Symbol,
        at: Place,
    },
    Label {
        font: Font,
        at: Place,
        words: Bytes,
    },
}

impl Shape {
    /// Adds the shape's element, in time linear in its words.
    pub fn write(&self, out: &mut Bytes) -> Result<(), NoMemory>
        ensures { OnOk result (Adds IsContent out.old out.new) }
    {
        match self {
            Shape::Line {
                stroke,
                way,
                from,
                to,
            } => write_line(stroke.class(), way.class(), from, to, out),
            Shape::Symbol { symbol, at } => write_symbol(symbol.href(), at, out),
            Shape::Label { font, at, words } => {
                write_label(font.class(), at, words.as_slice(), out)
            }
        }
    }
}

fn write_line(
    stroke: &[u8],
    way: &[u8],
    from: &Place,
    to: &Place,
    out: &mut Bytes,
) -> Result<(), NoMemory>
    ensures { OnOk result (out.new ≡ out.old ++ line_text stroke.now way.now from.now to.now) }
{
    out.extend(b"<line")?;
    two_words(b"class", stroke, way, out)?;
    number(b"x1", from.x, out)?;
    number(b"y1", from.y, out)?;
    number(b"x2", to.x, out)?;
    number(b"y2", to.y, out)?;
    out.extend(b"/>")
}

fn write_symbol(href: &[u8], at: &Place, out: &mut Bytes) -> Result<(), NoMemory>
    ensures { OnOk result (out.new ≡ out.old ++ symbol_text href.now at.now) }
{
    out.extend(b"<use")?;
    attribute(b"href", href, out)?;
    number(b"x", at.x, out)?;
    number(b"y", at.y, out)?;
    out.extend(b"/>")
}

fn write_label(class: &[u8], at: &Place, words: &[u8], out: &mut Bytes) -> Result<(), NoMemory>
    ensures { OnOk result (out.new ≡ out.old ++ label_text class.now at.now words.now) }
{
    out.extend(b"<text")?;
    attribute(b"class", class, out)?;
    number(b"x", at.x, out)?;
    number(b"y", at.y, out)?;
    out.extend(b">")?;
    escape(words, out)?;
    out.extend(b"</text>")
}
