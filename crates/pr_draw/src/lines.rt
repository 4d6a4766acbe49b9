// The lines of a text.
ghost use Rattle.pr_draw.specs.Pictures.{IsFirstEnd, IsFirstLine};
ghost use Rattle.pr_script.specs.Reading.{HasNoEnd};
ghost use Rattle.std.specs.Prelude.{MatchOption};

/// The first line, without its end, and what is behind it; None where no line ends. It takes time linear in the line.
pub fn split_line(text: &[u8]) -> Option<(&[u8], &[u8])>
    ensures { MatchOption result (HasNoEnd text.now) (λ p. IsFirstLine text.now p.0.now p.1.now) }
{
    match end_of(text) {
        Some(at) => Some((&text[..at], &text[at + 1..])),
        None => None,
    }
}

fn end_of(text: &[u8]) -> Option<usize>
    ensures { MatchOption result (HasNoEnd text.now) (IsFirstEnd text.now) }
{
    for (at, b) in text.iter().enumerate() {
        if *b == b'\n' {
            return Some(at);
        }
    }
    None
}
