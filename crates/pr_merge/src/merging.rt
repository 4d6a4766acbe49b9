// Several lists of times, merged into one list of places.
ghost use Rattle.pr_merge.specs.Heads.{IsEarliest, IsHead, IsNoLater, IsPlayedBut, IsPlayedAbove, IsWinner, head_time};
ghost use Rattle.pr_merge.specs.Merged.{IsMerged};
ghost use Rattle.std.specs.List.Sorted.{IsStrictlyIncreasing};
ghost use Rattle.std.specs.Prelude.{◌≡◌, ◌≤◌, ◌<◌, ◌+◌, ◌*◌, ◌/◌, ◌^◌, ◌⊎◌, ℕ, [], All, IfNone, IfSome, length, slice_index, sum_by};

use pr_stamps::{NODES, Roomy, Seq};

const LEAVES: usize = NODES as usize;

/// Puts into `out` each place of the parts, as the number of the part and the place in it, ordered by time, then part.
/// A part is the times of one node's entries, and its number is the node's. It takes no memory. For each place it
/// makes five comparisons: the parts' next times stand in a tournament, of which one path is played again.
pub fn merge(parts: &[Seq<u64>], out: &mut Roomy<(u32, usize)>)
    requires most { length parts.now ≤ 32 }
    requires rising { All IsStrictlyIncreasing parts.now }
    requires empty { out.old.items ≡ [] }
    requires room { sum_by length parts.now ≤ out.old.room }
    ensures merged { IsMerged parts.now out.new.items }
    ensures count { length out.new.items ≡ sum_by length parts.now }
{
    let mut next = [0; 32];
    let mut winners = tournament(parts, &next);
    while let Some(part) = earliest(parts, &next, &winners) {
        out.push((part as u32, next[part]));
        next[part] += 1;
        replay(parts, &next, &mut winners, part);
    }
}

// The part whose next place is the earliest; None where each part is at its end.
fn earliest(parts: &[Seq<u64>], next: &[usize; 32], winners: &[usize; 64]) -> Option<usize>
    requires most { length parts.now ≤ 32 }
    requires played { IsPlayedAbove parts.now next.now winners.now 0 }
    ensures within { IfSome result (λ n. n < length parts.now) }
    ensures range { IfSome result (λ n. slice_index next.now n + 1 < 2 ^ 64) }
    ensures found { IfSome result (λ n. IsEarliest parts.now next.now n) }
    ensures none { IfNone result ((m : ℕ) → ¬ IsHead parts.now next.now m) }
{
    let part = winners[1];
    head(parts, next, part)?;
    Some(part)
}

// By node of the tournament the part that wins there.
fn tournament(parts: &[Seq<u64>], next: &[usize; 32]) -> [usize; 64]
    ensures { IsPlayedAbove parts.now next.now result 0 }
{
    let mut winners = [0; 64];
    for part in 0..LEAVES {
        winners[LEAVES + part] = part;
    }
    for node in (1..LEAVES).rev() {
        winners[node] = play(parts, next, &winners, node);
    }
    winners
}

// Plays the nodes again that the part is under.
fn replay(parts: &[Seq<u64>], next: &[usize; 32], winners: &mut [usize; 64], part: usize)
    requires known { part < 32 }
    requires played { IsPlayedBut parts.now next.now winners.old ((32 + part) / 2) part }
    ensures { IsPlayedAbove parts.now next.now winners.new 0 }
{
    let mut node = (LEAVES + part) / 2;
    while node > 0 {
        winners[node] = play(parts, next, winners, node);
        node /= 2;
    }
}

// The winner of the node, of those of its children.
fn play(parts: &[Seq<u64>], next: &[usize; 32], winners: &[usize; 64], node: usize) -> usize
    requires inner { (0 < node) × (node < 32) }
    requires left { IsWinner parts.now next.now (2 * node) (slice_index winners.now (2 * node)) }
    requires right { IsWinner parts.now next.now (2 * node + 1) (slice_index winners.now (2 * node + 1)) }
    ensures { IsWinner parts.now next.now node result }
{
    earlier(parts, next, winners[2 * node], winners[2 * node + 1])
}

// Of two parts the one whose next place is the earlier.
fn earlier(parts: &[Seq<u64>], next: &[usize; 32], one: usize, other: usize) -> usize
    requires one { one < 32 }
    requires other { other < 32 }
    ensures either { (result ≡ one) ⊎ (result ≡ other) }
    ensures one { IsNoLater parts.now next.now result one }
    ensures other { IsNoLater parts.now next.now result other }
{
    match (head(parts, next, one), head(parts, next, other)) {
        (Some(a), Some(b)) if (b, other) < (a, one) => other,
        (None, Some(_)) => other,
        _ => one,
    }
}

// The time of the part's next place; None at the part's end.
fn head(parts: &[Seq<u64>], next: &[usize; 32], part: usize) -> Option<u64>
    requires { part < 32 }
    ensures found { IfSome result (λ time. IsHead parts.now next.now part × (time ≡ head_time parts.now next.now part)) }
    ensures range { IfSome result (λ time. slice_index next.now part + 1 < 2 ^ 64) }
    ensures none { IfNone result (¬ IsHead parts.now next.now part) }
{
    if part < parts.len() {
        let times = parts[part].as_slice();
        if next[part] < times.len() {
            return Some(times[next[part]]);
        }
    }
    None
}
