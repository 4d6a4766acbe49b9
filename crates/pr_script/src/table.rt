// The declarations so far, with the numbers of their labels.
ghost use Rattle.pr_script.specs.Labels.{IsNew, count_of, is_declared, is_label, label_of, labels_of, number_among};
ghost use Rattle.pr_script.specs.Packed.{packed};
ghost use Rattle.std.specs.Char.{is_ascii_alphanumeric};
ghost use Rattle.std.specs.List.{AllByRecursion, list_all, list_any};
ghost use Rattle.std.specs.Prelude.{◌≡◌, ◌≤◌, [], ◌∷◌, ◌++◌, OnErr, OnOk, false, length, map, nat_eq, true};

use crate::decl::Decl;
use crate::decls::Decls;
use crate::index;
use crate::kind::Kind;
use crate::labels::{kind_of, label_of};
use indexmap::IndexSet;
use pr_stamps::NoMemory;
use std::alloc::Global;
use std::marker::Model;

/// Whether the field is a label: 1 to 16 letters and digits.
pub fn is_label(field: &[u8]) -> bool
    ensures { result ≡ is_label field.now }
{
    1 <= field.len() && field.len() <= 16 && alphanumeric(field)
}

fn alphanumeric(field: &[u8]) -> bool
    ensures { result ≡ list_all is_ascii_alphanumeric field.now }
{
    field.iter().all(|b| b.is_ascii_alphanumeric())
}

/// The declarations so far. Labels are numbered by their places in maps in the order of declaration, so that each look-up
/// is one of a hash.
#[derive(Drop)]
pub struct Table {
    decls: Decls,
    nodes: IndexSet<u128>,
    clients: IndexSet<u128>,
    streams: IndexSet<u128>,
}

impl Model for Table {
    ghost use Rattle.std.specs.Prelude.{List};
    ghost use Rattle.pr_script.specs.declared.decl.Decl.{Decl as Declared};
    ghost use Rattle.pr_script.specs.Packed.{IsIndex};

    ghost Value = { List Declared };

    ghost view = { λ t. t.decls.list };

    ghost invariant = { λ t. IsIndex t.decls.list t.nodes.keys t.clients.keys t.streams.keys };
}

impl Table {
    pub fn new(alloc: Global) -> Table
        ensures { result ≡ [] }
    {
        Table {
            decls: Decls::new(alloc),
            nodes: IndexSet::new(alloc),
            clients: IndexSet::new(alloc),
            streams: IndexSet::new(alloc),
        }
    }

    // The keys of a kind.
    fn keys(&self, kind: Kind) -> &IndexSet<u128>
        ensures keys { result.now.keys ≡ map packed (labels_of kind self.now) }
        ensures few { count_of kind self.now ≤ 256 }
        ensures labels { AllByRecursion (λ l. is_label l ≡ true) (labels_of kind self.now) }
    {
        match kind {
            Kind::Node => &self.nodes,
            Kind::Client => &self.clients,
            Kind::Stream => &self.streams,
        }
    }

    /// The number of the label among those of a kind.
    pub fn number(&self, kind: Kind, label: &[u8]) -> Option<u32>
        requires { is_label label.now ≡ true }
        ensures { result ≡ number_among kind self.now label.now }
    {
        match index::place(self.keys(kind), index::packed(label)) {
            Some(number) => Some(number as u32),
            None => None,
        }
    }

    /// Whether the label stands for something.
    pub fn is_declared(&self, label: &[u8]) -> bool
        requires { is_label label.now ≡ true }
        ensures { result ≡ is_declared self.now label.now }
    {
        self.number(Kind::Node, label).is_some()
            || self.number(Kind::Client, label).is_some()
            || self.number(Kind::Stream, label).is_some()
    }

    /// How many of a kind there are.
    pub fn count(&self, kind: Kind) -> usize
        ensures { result ≡ count_of kind self.now }
    {
        self.keys(kind).len()
    }

    /// Adds a declaration. A refusal leaves the table.
    pub fn push(&mut self, decl: Decl) -> Result<(), NoMemory>
        requires { IsNew self.old decl }
        ensures ok { OnOk result (self.new ≡ self.old ++ decl ∷ []) }
        ensures err { OnErr result (self.new ≡ self.old) }
    {
        match kind_of(&decl) {
            Kind::Node => add(&mut self.nodes, &mut self.decls, decl),
            Kind::Client => add(&mut self.clients, &mut self.decls, decl),
            Kind::Stream => add(&mut self.streams, &mut self.decls, decl),
        }
    }

    pub fn into_decls(self) -> Decls
        ensures { result.list ≡ self }
    {
        self.decls
    }
}

// Adds a declaration and its label's key, or neither.
fn add(keys: &mut IndexSet<u128>, decls: &mut Decls, decl: Decl) -> Result<(), NoMemory>
    requires short { length (label_of decl) ≤ 16 }
    requires new { list_any (nat_eq (packed (label_of decl))) keys.old.keys ≡ false }
    ensures ok { OnOk result (decls.new.list ≡ decls.old.list ++ decl ∷ []) }
    ensures key { OnOk result (keys.new.keys ≡ keys.old.keys ++ packed (label_of decl) ∷ []) }
    ensures err { OnErr result (decls.new.list ≡ decls.old.list) }
    ensures no_key { OnErr result (keys.new.keys ≡ keys.old.keys) }
{
    let key = index::packed(label_of(&decl));
    index::room(keys)?;
    decls.push(decl)?;
    index::put(keys, key);
    Ok(())
}
