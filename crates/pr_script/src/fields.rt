// The fields of a line.
ghost use Rattle.pr_script.specs.Fields.{Gives, before_space, field_at, from_space, is_blank, is_plain, last_field, name_of, skip_spaces};
ghost use Rattle.std.specs.List.{list_all};
ghost use Rattle.std.specs.Prelude.{◌≡◌};

use crate::refusal::Refusal;
use pr_names::Name;

/// The bytes from the first that is no space.
pub fn unspaced(bytes: &[u8]) -> &[u8]
    ensures { result.now ≡ skip_spaces bytes.now }
{
    let mut rest = bytes;
    while let [b' ', more @ ..] = rest {
        rest = more;
    }
    rest
}

fn split_space(bytes: &[u8]) -> (&[u8], &[u8])
    ensures before { result.0.now ≡ before_space bytes.now }
    ensures from { result.1.now ≡ from_space bytes.now }
{
    let mut at = 0;
    for b in bytes {
        if *b == b' ' {
            break;
        }
        at += 1;
    }
    bytes.split_at(at)
}

/// The first field, and the bytes after it.
#[tactic(auto, unfolding(crate::specs::Fields::field_at))]
pub fn field(bytes: &[u8]) -> Result<(&[u8], &[u8]), Refusal>
    ensures { Gives (λ x. (x.0.now, x.1.now)) result (field_at bytes.now) }
{
    let rest = unspaced(bytes);
    if rest.is_empty() {
        return Err(Refusal::Why(3));
    }
    Ok(split_space(rest))
}

/// The last field.
#[tactic(auto, unfolding(crate::specs::Fields::last_field))]
pub fn end_field(bytes: &[u8]) -> Result<&[u8], Refusal>
    ensures { Gives (λ x. x.now) result (last_field bytes.now) }
{
    let (first, rest) = field(bytes)?;
    if !blank(rest) {
        return Err(Refusal::Why(3));
    }
    Ok(first)
}

/// Whether there are spaces only.
pub fn blank(bytes: &[u8]) -> bool
    ensures { result ≡ is_blank bytes.now }
{
    bytes.iter().all(|b| *b == b' ')
}

/// Whether each byte is one that a line may have.
pub fn plain(bytes: &[u8]) -> bool
    ensures { result ≡ list_all is_plain bytes.now }
{
    bytes.iter().all(|b| b' ' <= *b && *b <= b'~')
}

/// The name that the field is.
pub fn name(field: &[u8]) -> Option<Name>
    ensures { result ≡ name_of field.now }
{
    match Name::read(field) {
        Ok(name) => Some(name),
        Err(_) => None,
    }
}
