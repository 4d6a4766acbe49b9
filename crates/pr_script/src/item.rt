// What a line says.

use crate::{Command, Decl};

/// A declaration or a command.
#[derive(Drop)]
pub enum Item {
    Decl(Decl),
    Command(Command),
}
