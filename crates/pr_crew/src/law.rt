// What holds of the phases of jobs. Each law is the contract of a function that does nothing.
ghost use Rattle.pr_crew.specs.Assembly.{PhasesAreAssembled};

/// What the jobs of a phase made beside each other, in the merged order of their times, keeps the history valid where no
/// client and no stream is in two jobs, is a phase of the jobs, and is each node's own list behind its journal.
pub fn phases_are_assembled()
    ensures { PhasesAreAssembled }
{}
