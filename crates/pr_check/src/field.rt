// The fields of a line.
ghost use Rattle.pr_check.specs.Fields.{behind, field_at, front_from, is_end, quoted_after, rest_from};
ghost use Rattle.std.specs.Prelude.{◌≡◌, false};

/// The field at this place, counted from 0, which is empty where there are not so many; in time linear in the bytes up to
/// its end. A space ends a field, but within quotes.
pub fn field_at(place: usize, bytes: &[u8]) -> &[u8]
    ensures { result.now ≡ field_at place bytes.now }
{
    front_and_rest(behind(place, bytes)).0
}

/// What stands behind so many fields.
pub fn behind(count: usize, bytes: &[u8]) -> &[u8]
    ensures { result.now ≡ behind count bytes.now }
{
    let mut rest = bytes;
    for _ in 0..count {
        rest = front_and_rest(rest).1;
    }
    rest
}

// The first field, and what stands behind it.
fn front_and_rest(bytes: &[u8]) -> (&[u8], &[u8])
    ensures front { result.0.now ≡ front_from false bytes.now }
    ensures rest { result.1.now ≡ rest_from false bytes.now }
{
    let mut quoted = false;
    for (at, b) in bytes.iter().enumerate() {
        if is_end(quoted, *b) {
            return (&bytes[..at], &bytes[at + 1..]);
        }
        quoted = quoted_after(quoted, *b);
    }
    (bytes, b"".as_slice())
}

// Whether the byte ends a field.
fn is_end(quoted: bool, b: u8) -> bool
    ensures { result ≡ is_end quoted b }
{
    !quoted && b == b' '
}

// Whether what is behind the byte stands within quotes.
fn quoted_after(quoted: bool, b: u8) -> bool
    ensures { result ≡ quoted_after quoted b }
{
    if b == b'"' { !quoted } else { quoted }
}
