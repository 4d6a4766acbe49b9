// A transcript that was read.

use pr_script::Decls;
use pr_sim::Engine;

/// What a transcript declares, and the nodes that have made the events of its lines again: the engine's history is the
/// transcript's.
#[derive(Drop)]
pub struct Transcript {
    pub decls: Decls,
    pub engine: Engine,
}
