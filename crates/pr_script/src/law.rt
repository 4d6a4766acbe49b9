// What holds of all scripts.
ghost use Rattle.pr_names.specs.Span.{Span};
ghost use Rattle.pr_script.specs.Laws.{AreGoodScripts, HaveAMeaning, HaveLabels, HaveOneMeaning, ReadsBack, StepAlone, StepOfPhase};
ghost use Rattle.pr_script.specs.Sets.{share};
ghost use Rattle.pr_sets.specs.Spans.{IsSet, Meet, has};
ghost use Rattle.std.specs.Prelude.{◌↔◌, IsTrue, List};

/// Each list of bytes has one meaning: a script, or a line and the least rule that it breaks.
pub fn scripts_have_one_meaning()
    ensures one { HaveOneMeaning }
    ensures some { HaveAMeaning }
{}

/// The grammar's test on two sets of a node says whether a name is in both.
pub fn sets_share_a_name_where_intervals_overlap()
    ensures { (a b : List Span) → IsSet a → IsSet b → IsTrue (share a b) ↔ Meet (has a) (has b) }
{}

/// What a script is printed as is read as the same script but for the numbers of lines.
pub fn printed_scripts_read_back()
    ensures { ReadsBack }
{}

/// The labels of a script that is read are labels, none stands twice among those of a kind, and there are at most 32
/// nodes, 256 clients and 64 streams.
pub fn labels_tell_declarations_apart()
    ensures { HaveLabels }
{}

/// A script that is read is good for a run: its declarations are such as nodes and sessions ask for, each command names
/// what is declared, each stream that it uses is attached, and each phase has its end, few jobs and no stream twice.
pub fn accepted_scripts_are_good()
    ensures { AreGoodScripts }
{}

/// A script's steps, one after the other: a command that is no `phase` is one, and where each phase has its end, a phase
/// is one with the commands before that end.
pub fn steps_follow_the_commands()
    ensures alone { StepAlone }
    ensures phase { StepOfPhase }
{}
