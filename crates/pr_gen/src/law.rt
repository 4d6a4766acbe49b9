// What holds of all workloads.
ghost use Rattle.pr_gen.specs.Workload.{workload};
ghost use Rattle.pr_script.specs.Good.{IsGood};
ghost use Rattle.pr_script.specs.Labels.{AreLabels};
ghost use Rattle.pr_script.specs.Printing.{script_text};
ghost use Rattle.pr_script.specs.Reading.{Means};
ghost use Rattle.pr_script.specs.Steps.{steps_of};
ghost use Rattle.pr_story.specs.History.{NodeEntry};
ghost use Rattle.pr_text.specs.Histories.{unmet_from};
ghost use Rattle.std.specs.Prelude.{◌≡◌, ◌≤◌, ℕ, List, None, Ok};

/// Each workload of at most 90,000 steps is good for a run, as each accepted script is.
pub fn workloads_are_good()
    ensures { (seed size : ℕ) → size ≤ 90000 → IsGood (workload seed size) }
{}

/// The labels of a workload are labels, none stands twice among those of a kind, and there are few of a kind.
pub fn labels_tell_declarations_apart()
    ensures { (seed size : ℕ) → AreLabels (workload seed size).decls.list }
{}

/// What a workload is printed as is read as that workload, to the numbers of its lines.
pub fn printed_workloads_read_back()
    ensures { (seed size : ℕ) → size ≤ 90000 → Means (script_text (workload seed size)) (Ok (workload seed size)) }
{}

/// A workload expects nothing: whatever its steps give, no expectation of it is not met.
pub fn workloads_expect_nothing()
    ensures { (seed size : ℕ) (es : List NodeEntry) (parts : List (List NodeEntry)) → unmet_from es (steps_of (workload seed size).commands) parts ≡ None }
{}
