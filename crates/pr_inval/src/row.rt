// What a checkpoint says of a name.
ghost use Rattle.std.specs.Prelude.{◌≡◌, IfOk};

use pr_names::Name;
use pr_stamps::{Mark, NoMemory, Seq, Stamp};
use std::alloc::Global;

/// A name of a checkpoint: its newest stamp, whether the write with that stamp is a delete, and its marks in the
/// order of their stamps.
#[derive(Drop)]
pub struct Row {
    pub name: Name,
    pub newest: Stamp,
    pub gone: bool,
    pub marks: Seq<Mark>,
}

impl Row {
    /// A copy, in time linear in the marks.
    pub fn copy(&self, alloc: Global) -> Result<Row, NoMemory>
        ensures { IfOk result (λ row. row ≡ self.now) }
    {
        let marks = Seq::copied(alloc, self.marks.as_slice())?;
        Ok(Row {
            name: self.name,
            newest: self.newest,
            gone: self.gone,
            marks,
        })
    }
}
