// Laws of the spelling and of kept files.
ghost use Rattle.pr_keep.specs.Entries.{IsSpelled};
ghost use Rattle.pr_keep.specs.Files.{IsDamaged, StandsFor};
ghost use Rattle.pr_keep.specs.Reading.{entry_at, whole_entry_at};
ghost use Rattle.pr_keep.specs.Spelling.{entry_text};
ghost use Rattle.pr_story.specs.declared.entry.Entry.{Entry};
ghost use Rattle.std.specs.Prelude.{◌≡◌, ◌<◌, ◌++◌, ℕ, List, Some, slice_index};

/// An entry that was spelled is read again, whatever follows it; and so two entries have two spellings.
pub fn kept_entries_are_read_again()
    ensures again { (e : ℕ × Entry) (rest : List ℕ) → IsSpelled e → entry_at (entry_text e ++ rest) ≡ Some (e, rest) }
    ensures whole { (e : ℕ × Entry) → IsSpelled e → whole_entry_at (entry_text e) ≡ Some e }
    ensures one { (e d : ℕ × Entry) → IsSpelled e → IsSpelled d → entry_text e ≡ entry_text d → e ≡ d }
{}

/// Bytes that are read as an entry begin with its spelling.
pub fn read_entries_are_spelled()
    ensures { (bytes : List ℕ) (e : ℕ × Entry) (rest : List ℕ) → ((i : ℕ) → slice_index bytes i < 256) → entry_at bytes ≡ Some (e, rest) → (bytes ≡ entry_text e ++ rest) × IsSpelled e }
{}

/// A file stands for at most one list of entries.
pub fn files_stand_for_one_list()
    ensures { (file : List ℕ) (es ds : List (ℕ × Entry)) → StandsFor file es → StandsFor file ds → es ≡ ds }
{}

/// A file that is damaged stands for no list, and it is damaged at one place.
pub fn damaged_files_stand_for_nothing()
    ensures nothing { (file : List ℕ) (at : ℕ) (es : List (ℕ × Entry)) → IsDamaged file at → ¬ StandsFor file es }
    ensures one { (file : List ℕ) (at place : ℕ) → IsDamaged file at → IsDamaged file place → at ≡ place }
{}
