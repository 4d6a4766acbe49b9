// What holds of all sets.
ghost use Rattle.pr_names.specs.Name.{IsName};
ghost use Rattle.pr_names.specs.Span.{IsSpan, Span};
ghost use Rattle.pr_sets.specs.Spans.{IsSet, has};
ghost use Rattle.pr_sets.specs.Text.{IsListOf, list_of, set_read, set_text};
ghost use Rattle.std.specs.Prelude.{◌≡◌, ◌≤◌, ℕ, All, length, Ok, List};

/// Two sets with the same names are one list.
pub fn same_names_same_list()
    ensures { (a b : List Span) → IsSet a → IsSet b → ((o : List ℕ) → IsName o → has a o ≡ has b o) → a ≡ b }
{}

/// The one list of intervals in any order has just their names.
pub fn lists_have_the_names_of_their_parts()
    ensures { (parts : List Span) → All IsSpan parts → IsListOf parts (list_of parts) }
{}

/// What a set is printed as is read as that set, where it has at most so many intervals.
pub fn printed_sets_read_back()
    ensures { (ss : List Span) (most : ℕ) → IsSet ss → length ss ≤ most → set_read (set_text ss) most ≡ Ok ss }
{}
