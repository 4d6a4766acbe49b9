// What holds of all transcripts.
ghost use Rattle.pr_text.specs.Laws.{ExpectationsGoOn, LinesGoOn, PhasesAreApart, RunsAreHistories, ScriptsHaveApartJobs};
ghost use Rattle.pr_text.specs.Transcripts.{LinesTell};

/// Two histories of one script's declarations that have the same lines are the same but for the callers' numbers.
pub fn lines_tell_the_history()
    ensures { LinesTell }
{}

/// A run to a script's end gives a history of the script, whatever it leaves unmet.
pub fn runs_are_histories()
    ensures { RunsAreHistories }
{}

/// The jobs of a phase of an accepted script share no client and no stream, each client's job is that client's writes,
/// deletes and reads alone, and each stream that flows is attached: in any history where the streams are attached that
/// may flow, and so in the history of the lines before.
pub fn phases_have_apart_jobs()
    ensures phases { PhasesAreApart }
    ensures scripts { ScriptsHaveApartJobs }
{}

/// A run goes on line by line: one line more gives one list of entries more, and leaves unmet what the lines before did,
/// or else what it leaves unmet itself.
pub fn runs_go_on()
    ensures lines { LinesGoOn }
    ensures expectations { ExpectationsGoOn }
{}
