// What the program is to do.

use pr_stamps::Bytes;

/// The job that the words ask for.
#[derive(Drop)]
pub enum Job {
    /// Run a script in one thread.
    Sim,
    /// Run a script with each job of a phase in a thread of its own.
    Run,
    /// Run the generated script of a seed, with 1 to 90,000 steps.
    Gen { seed: u64, size: u64 },
    /// Judge a transcript.
    Check,
    /// Run a script and keep its entries on a disk that answers so many calls, from 2 to 1,000,000,000, where that is
    /// told, and then fails each.
    Kept { stop: Option<u64> },
    /// Ask for the streams of a node.
    Ask { node: Bytes },
    /// Answer such requests at a node.
    Serve { node: Bytes },
    /// Take in what was answered, at a node.
    Pull { node: Bytes },
}
