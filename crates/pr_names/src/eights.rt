// The order of the bytes of two names, eight at a time.
ghost use Rattle.std.specs.Cmp.Lexicographic.{slice_cmp};
ghost use Rattle.std.specs.Int.{from_be_bytes, w64};
ghost use Rattle.std.specs.Ordering.{nat_cmp};
ghost use Rattle.std.specs.Prelude.{◌≡◌, ◌<◌, ◌*◌, drop, take};

use std::cmp::Ordering;

/// The first byte that differs decides. Eight bytes at a time are compared, as one number.
pub fn order(a: &[u8; 64], b: &[u8; 64]) -> Ordering
    ensures { result ≡ slice_cmp nat_cmp a.now b.now }
{
    for i in 0..8 {
        let found = word(a, i).cmp(&word(b, i));
        if found.is_ne() {
            return found;
        }
    }
    Ordering::Equal
}

// The number that the eight bytes of this word spell, the first byte the greatest.
fn word(bytes: &[u8; 64], i: usize) -> u64
    requires { i < 8 }
    ensures { result ≡ from_be_bytes w64 (take 8 (drop (8 * i) bytes.now)) }
{
    let at = 8 * i;
    u64::from_be_bytes([
        bytes[at],
        bytes[at + 1],
        bytes[at + 2],
        bytes[at + 3],
        bytes[at + 4],
        bytes[at + 5],
        bytes[at + 6],
        bytes[at + 7],
    ])
}
