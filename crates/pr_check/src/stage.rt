// How far a judge has come.

use pr_sim::Engine;

/// What the lines so far were.
#[derive(Drop)]
pub enum Stage {
    /// Head lines alone.
    Heads,
    /// Other lines too, whose events the engine has made again.
    Events(Engine),
    /// All lines of a transcript, whose events the engine has made again.
    Ended(Engine),
    /// A bad line, or memory ran out.
    Spent,
}
