// Nodes and sessions that have done nothing.
ghost use Rattle.pr_sets.specs.Sets.{AreApart};
ghost use Rattle.std.specs.Prelude.{◌<◌, IfOk};

use crate::failed::Failed;
use crate::naming::set;
use pr_inval::Session;
use pr_node::Node;
use pr_sets::NameSet;
use pr_stamps::Seq;
use std::alloc::Global;

/// The caller of each call.
pub const CALLER: u32 = 0;

/// The client of each write and read.
pub const CLIENT: u32 = 0;

/// The node of this number, with one set of all names.
pub fn node(alloc: Global, id: u32) -> Result<Node, Failed>
    requires { id < 32 }
{
    let sets = one(alloc, set(alloc, b"*")?)?;
    Ok(Node::new(alloc, id, sets)?)
}

fn one(alloc: Global, set: NameSet) -> Result<Seq<NameSet>, Failed>
    ensures { IfOk result AreApart }
{
    let mut sets = Seq::new(alloc);
    sets.push(set)?;
    Ok(sets)
}

/// The session of a stream with these names, which is not attached.
pub fn session(alloc: Global, names: NameSet, bodies: bool) -> Result<Session, Failed> {
    if names.is_empty() {
        return Err(Failed);
    }
    Ok(Session::new(alloc, 0, names, bodies))
}
