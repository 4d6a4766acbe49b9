// Which points the vectors cover that the calls give.
ghost use Rattle.pr_stamps.specs.Point.{Before, Point};
ghost use Rattle.pr_vectors.specs.Vector.{Covers, below_of, cut_of, join_of, meet_of};
ghost use Rattle.std.specs.Prelude.{◌<◌, ◌↔◌, ◌⊎◌, ℕ, List};

/// A join covers what either vector covers, a meet what both cover, and the two cuts what stands up to a stamp, and
/// before it, in the order of stamps.
pub fn vectors_cover_points()
    ensures join { (v w : List ℕ) (p : Point) → p.node < 32 → Covers (join_of v w) p ↔ (Covers v p ⊎ Covers w p) }
    ensures meet { (v w : List ℕ) (p : Point) → p.node < 32 → Covers (meet_of v w) p ↔ (Covers v p × Covers w p) }
    ensures cut { (v : List ℕ) (s p : Point) → p.node < 32 → Covers (cut_of v s) p ↔ (Covers v p × ¬ Before s p) }
    ensures below { (v : List ℕ) (s p : Point) → p.node < 32 → Covers (below_of v s) p ↔ (Covers v p × Before p s) }
{}
