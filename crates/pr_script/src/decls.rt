// The declarations of a script.
ghost use Rattle.pr_script.specs.Labels.{label_of, labels_of};
ghost use Rattle.pr_script.specs.Printing.{label_text};
ghost use Rattle.std.specs.Prelude.{◌≡◌, [], ◌∷◌, ◌++◌, OnErr, OnOk};

use crate::Decl;
use crate::kind::Kind;
use crate::labels::{kind_of, label_of};
use pr_stamps::{Bytes, NoMemory, Seq};
use std::alloc::Global;
use std::marker::Model;

/// The declarations of a script, in its order, with the labels of each kind by number.
#[derive(Drop)]
pub struct Decls {
    alloc: Global,
    list: Seq<Decl>,
    nodes: Seq<Bytes>,
    clients: Seq<Bytes>,
    streams: Seq<Bytes>,
}

impl Model for Decls {
    ghost use Rattle.pr_script.specs.Listed.{AreByNumber, Declarations};

    ghost Value = { Declarations };

    ghost view = { λ d. record { list = d.list } };

    ghost invariant = { λ d. AreByNumber d.list d.nodes d.clients d.streams };
}

impl Decls {
    /// No declarations, which take no memory.
    pub fn new(alloc: Global) -> Decls
        ensures { result.list ≡ [] }
    {
        Decls {
            alloc,
            list: Seq::new(alloc),
            nodes: Seq::new(alloc),
            clients: Seq::new(alloc),
            streams: Seq::new(alloc),
        }
    }

    /// Adds a declaration, in time linear in its label where no list need grow. A refusal leaves what there was.
    pub fn push(&mut self, decl: Decl) -> Result<(), NoMemory>
        ensures ok { OnOk result (self.new.list ≡ self.old.list ++ decl ∷ []) }
        ensures err { OnErr result (self.new ≡ self.old) }
    {
        let label = Seq::copied(self.alloc, label_of(&decl))?;
        match kind_of(&decl) {
            Kind::Node => add(&mut self.nodes, label, &mut self.list, decl),
            Kind::Client => add(&mut self.clients, label, &mut self.list, decl),
            Kind::Stream => add(&mut self.streams, label, &mut self.list, decl),
        }
    }

    pub fn as_slice(&self) -> &[Decl]
        ensures { result.now ≡ self.now.list }
    {
        self.list.as_slice()
    }

    /// The labels of a kind by number, in constant time.
    pub fn labels(&self, kind: Kind) -> &[Bytes]
        ensures { result.now ≡ labels_of kind self.now.list }
    {
        match kind {
            Kind::Node => self.nodes.as_slice(),
            Kind::Client => self.clients.as_slice(),
            Kind::Stream => self.streams.as_slice(),
        }
    }

    /// The label with this number of its kind, in constant time; nothing where there are not so many.
    pub fn label(&self, kind: Kind, number: u32) -> &[u8]
        ensures { result.now ≡ label_text kind self.now.list number }
    {
        match self.labels(kind).get(number as usize) {
            Some(label) => label.as_slice(),
            None => b"".as_slice(),
        }
    }
}

// Adds a label and its declaration, or neither.
fn add(
    labels: &mut Seq<Bytes>,
    label: Bytes,
    list: &mut Seq<Decl>,
    decl: Decl,
) -> Result<(), NoMemory>
    ensures ok { OnOk result (list.new ≡ list.old ++ decl ∷ []) }
    ensures label { OnOk result (labels.new ≡ labels.old ++ label ∷ []) }
    ensures err { OnErr result (list.new ≡ list.old) }
    ensures no_label { OnErr result (labels.new ≡ labels.old) }
{
    let before = labels.len();
    labels.push(label)?;
    if list.push(decl).is_ok() {
        return Ok(());
    }
    labels.truncate(before);
    Err(NoMemory)
}
