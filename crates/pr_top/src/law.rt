// What holds of any two runs.
ghost use Rattle.pr_top.specs.Repeating.{RunsRepeat};

/// Run the same script twice in one thread, as `sim` does, and both times to its end: the status is the same, and so
/// is the transcript, byte for byte. Behind it, the line of an expectation that was not met may be cut short or left
/// out, but only where the sink fails.
pub fn runs_repeat()
    ensures { RunsRepeat }
{}
