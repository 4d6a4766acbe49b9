// A whole script.

use crate::{Command, Decls};
use pr_stamps::Seq;

/// The declarations, and each command with the number of its line. Lines count from 1, and those that are skipped count.
#[derive(Drop)]
pub struct Script {
    pub decls: Decls,
    pub commands: Seq<(u64, Command)>,
}
