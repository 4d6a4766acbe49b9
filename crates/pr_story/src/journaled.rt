// Nodes, as a history sees them.
ghost use Rattle.pr_names.specs.Span.{Span};
ghost use Rattle.pr_story.specs.declared.entry.Entry.{Entry};
ghost use Rattle.std.specs.Prelude.{ℕ, List};

/// A node of which a history can be told: its number, the sets of names that it is interested in, and what it has done.
pub trait Journaled {
    ghost number: { Self → ℕ };

    ghost sets: { Self → List (List Span) };

    /// The newest entry first.
    ghost journal: { Self → List Entry };
}
