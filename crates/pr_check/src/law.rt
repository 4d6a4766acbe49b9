// What holds of all lines and of all histories.
ghost use Rattle.pr_check.specs.Determined.{SoundHistoriesAgree};
ghost use Rattle.pr_check.specs.Judging.{BeginLineByLine};
ghost use Rattle.pr_check.specs.Said.{AreGiven};

/// What the line of an event says is a command that may give the event, where a delete has no body; a client that is
/// behind was refused by one that the line does not tell.
pub fn events_are_given_by_what_lines_say()
    ensures { AreGiven }
{}

/// Where lines begin a transcript, so do the first of them: a first bad line is the first one up to which they begin none.
pub fn transcripts_begin_line_by_line()
    ensures { BeginLineByLine }
{}

/// Run a script twice in one thread, with no wire that fails or ends: both histories have the same entries in the
/// same order. Only the callers' numbers may differ, which no line of a transcript shows.
pub fn sound_histories_of_a_script_agree()
    ensures { SoundHistoriesAgree }
{}
