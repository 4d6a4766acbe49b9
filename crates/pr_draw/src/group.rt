// The group of a line.

ghost use Rattle.pr_draw.specs.Pictures.{IsGroup};
ghost use Rattle.pr_draw.specs.Tags.{Adds};
ghost use Rattle.pr_draw.specs.Xml.{IsContent};
ghost use Rattle.std.specs.Prelude.{OnOk};

use crate::shape::Shape;
use crate::xml::escape;
use pr_stamps::{Bytes, NoMemory};

/// Adds a group that has the line as its title, and the shapes, in time linear in the words.
pub fn write_group(line: &[u8], shapes: &[Shape], out: &mut Bytes) -> Result<(), NoMemory>
    ensures { OnOk result (Adds (IsGroup line.now) out.old out.new) }
{
    out.extend(b"<g><title>")?;
    escape(line, out)?;
    out.extend(b"</title>")?;
    write_shapes(shapes, out)?;
    out.extend(b"</g>\n")
}

/// Adds the shapes, one behind the other.
pub fn write_shapes(shapes: &[Shape], out: &mut Bytes) -> Result<(), NoMemory>
    ensures { OnOk result (Adds IsContent out.old out.new) }
{
    for shape in shapes {
        shape.write(out)?;
    }
    Ok(())
}
