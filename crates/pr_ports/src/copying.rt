// Bytes from one slice into another.
ghost use Rattle.std.specs.Prelude.{◌≡◌, ◌++◌, drop, length, min, take};

// Copies as many bytes as there are, at most `most` and at most what fits.
pub fn give(from: &[u8], most: usize, to: &mut [u8]) -> usize
    ensures count { result ≡ min (min (length from.now) most) (length to.old) }
    ensures given { from.now ≡ take result to.new ++ drop result from.now }
{
    let n = from.len().min(most).min(to.len());
    to[..n].copy_from_slice(&from[..n]);
    n
}
