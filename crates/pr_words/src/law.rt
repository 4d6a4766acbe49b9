// What holds of all words.
ghost use Rattle.pr_words.specs.Calls.{AreCalls};

/// Words ask for a job exactly where they are the words of a call for it: options, the mode and options, with `--`
/// behind them all, or options, `--` and the mode. docs/DECISIONS.md has the rules.
pub fn words_that_ask_are_calls()
    ensures { AreCalls }
{}
