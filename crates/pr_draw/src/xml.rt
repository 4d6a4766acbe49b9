// Words and attributes, as XML has them.
ghost use Rattle.pr_draw.specs.Tags.{attribute, escaped, number, spelled, words};
ghost use Rattle.pr_draw.specs.Xml.{attribute_text};
ghost use Rattle.std.specs.Prelude.{◌≡◌, ◌++◌, OnOk};

use itoa::Buffer;
use pr_stamps::{Bytes, NoMemory};

/// Adds the words as XML's text, in linear time: `<`, `>`, `&` and the double quote as references, and a byte that is
/// neither visible ASCII nor a space nor a line's end as a question mark.
pub fn escape(words: &[u8], out: &mut Bytes) -> Result<(), NoMemory>
    ensures { OnOk result (out.new ≡ out.old ++ escaped words.now) }
{
    for b in words {
        escape_byte(*b, out)?;
    }
    Ok(())
}

fn escape_byte(b: u8, out: &mut Bytes) -> Result<(), NoMemory>
    ensures { OnOk result (out.new ≡ out.old ++ spelled b) }
{
    match b {
        b'<' => out.extend(b"&lt;"),
        b'>' => out.extend(b"&gt;"),
        b'&' => out.extend(b"&amp;"),
        b'"' => out.extend(b"&quot;"),
        b' '..=b'~' | b'\n' => out.push(b),
        _ => out.push(b'?'),
    }
}

/// Adds an attribute, behind a space.
pub fn attribute(key: &[u8], value: &[u8], out: &mut Bytes) -> Result<(), NoMemory>
    ensures { OnOk result (out.new ≡ out.old ++ attribute_text (attribute key.now value.now)) }
{
    out.push(b' ')?;
    out.extend(key)?;
    out.extend(b"=\"")?;
    escape(value, out)?;
    out.push(b'"')
}

/// Adds an attribute whose value is two words.
pub fn two_words(key: &[u8], first: &[u8], second: &[u8], out: &mut Bytes) -> Result<(), NoMemory>
    ensures { OnOk result (out.new ≡ out.old ++ attribute_text (words key.now first.now second.now)) }
{
    out.push(b' ')?;
    out.extend(key)?;
    out.extend(b"=\"")?;
    escape(first, out)?;
    out.push(b' ')?;
    escape(second, out)?;
    out.push(b'"')
}

/// Adds an attribute whose value is a number.
pub fn number(key: &[u8], value: u64, out: &mut Bytes) -> Result<(), NoMemory>
    ensures { OnOk result (out.new ≡ out.old ++ attribute_text (number key.now value)) }
{
    let mut buffer = Buffer::new();
    attribute(key, buffer.format(value).as_bytes(), out)
}
