// Values that a cell can share.
ghost use Rattle.std.specs.Prelude.{ℕ, List};

/// A value whose meaning is a list of entries, each with the number of the caller that made it.
pub trait Storied {
    /// What the list holds.
    type Entry;

    ghost entries: { Self → List Self.Entry };

    ghost number: { Self.Entry → ℕ };
}
