// Which nodes have points between two vectors.
ghost use Rattle.std.specs.Prelude.{◌≡◌, ◌≤◌, ◌<◌, ℕ, IfSome, None, length, slice_index};
ghost use Rattle.pr_vectors.specs.Vector.{clock_of};

use crate::Clocked;

/// The node that has points between the vectors, if it is the only one, in time linear in the nodes of the second.
pub fn only_between<V: Clocked>(from: &V, to: &V) -> Option<u32>
    ensures range { IfSome result (λ n. n < 32) }
    ensures rises { IfSome result (λ n. clock_of (V.clocks from.now) n < clock_of (V.clocks to.now) n) }
    ensures alone { IfSome result (λ n. (k : ℕ) → k < 32 → clock_of (V.clocks from.now) k < clock_of (V.clocks to.now) k → k ≡ n) }
{
    let only = to.next_above(from, 0)?;
    match to.next_above(from, only + 1) {
        Some(_) => None,
        None => Some(only),
    }
}

// The first place from this one on at which a clock is above the other's.
pub(crate) fn next_above(clocks: &[u32], others: &[u32], start: u32) -> Option<u32>
    requires same { length clocks.now ≡ length others.now }
    requires most { length clocks.now ≤ 32 }
    ensures range { IfSome result (λ n. n < length clocks.now) }
    ensures rises { IfSome result (λ n. slice_index others.now n < slice_index clocks.now n) }
    ensures from { IfSome result (λ n. start ≤ n) }
    ensures least { IfSome result (λ n. (k : ℕ) → start ≤ k → k < n → slice_index clocks.now k ≤ slice_index others.now k) }
    ensures none { result ≡ None → (k : ℕ) → start ≤ k → k < length clocks.now → slice_index clocks.now k ≤ slice_index others.now k }
{
    for n in start..clocks.len() as u32 {
        if others[n as usize] < clocks[n as usize] {
            return Some(n);
        }
    }
    None
}
