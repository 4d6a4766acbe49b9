// Words of a line.

use pr_check::behind;

/// So many fields of the line, behind the first ones; a space within quotes ends no field. It takes time linear in the
/// line.
pub fn fields(line: &[u8], first: usize, count: usize) -> &[u8] {
    let rest = behind(first, line);
    let after = behind(count, rest);
    match &rest[..rest.len().saturating_sub(after.len())] {
        [front @ .., b' '] => front,
        all => all,
    }
}
