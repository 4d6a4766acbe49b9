// What the fields of lines are printed with.
ghost use Rattle.pr_script.specs.Labels.{labels_of};
ghost use Rattle.pr_script.specs.declared.kind.Kind.TheVariants as kinds;
ghost use Rattle.pr_text.specs.Texts.{vector_text};
ghost use Rattle.std.specs.Prelude.{◌≡◌, ◌++◌, OnOk};

use crate::ClockTexts;
use crate::packed::push_clocks;
use pr_script::{Bytes, Decls, Kind};
use pr_stamps::NoMemory;
use pr_vectors::PackedVector;
use std::marker::Model;

/// The declarations, and where lines come one after another the texts that may come again. Contracts see it as the
/// declarations.
#[derive(Drop)]
pub struct Stock<'a> {
    decls: &'a Decls,
    clocks: Option<&'a ClockTexts>,
}

impl<'a> Model for Stock<'a> {
    ghost use Rattle.std.specs.Prelude.{◌≡◌, IfSome};
    ghost use Rattle.pr_script.specs.Listed.{Declarations};
    ghost use Rattle.pr_script.specs.Labels.{labels_of};
    ghost use Rattle.pr_script.specs.declared.kind.Kind.TheVariants as kinds;

    ghost Value = { Declarations };

    ghost view = { λ s. s.decls.now };

    ghost invariant = { λ s. IfSome s.clocks (λ clocks. clocks.now ≡ labels_of kinds.Node s.decls.now.list) };
}

impl<'a> Stock<'a> {
    pub fn of(decls: &'a Decls) -> Stock<'a>
        ensures { result ≡ decls.now }
    {
        Stock {
            decls,
            clocks: None,
        }
    }

    pub fn with(decls: &'a Decls, clocks: &'a ClockTexts) -> Stock<'a>
        requires { clocks.now ≡ labels_of kinds.Node decls.now.list }
        ensures { result ≡ decls.now }
    {
        Stock {
            decls,
            clocks: Some(clocks),
        }
    }

    pub fn decls(&self) -> &Decls
        ensures { result.now ≡ self.now }
    {
        self.decls
    }

    /// Adds what `push_vector` adds for the same vector, without unpacking it.
    pub fn push(&self, vector: &PackedVector, text: &mut Bytes) -> Result<(), NoMemory>
        ensures { OnOk result (text.new ≡ text.old ++ vector_text self.now.list vector.now) }
    {
        match self.clocks {
            Some(clocks) => clocks.push(vector, text),
            None => push_clocks(self.decls.labels(Kind::Node), vector, text),
        }
    }
}
