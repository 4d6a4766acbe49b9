// A node that asks.
ghost use Rattle.pr_node.specs.Stored.{means};
ghost use Rattle.pr_script.specs.Good.{AreGoodDecls};
ghost use Rattle.pr_script.specs.Labels.{is_kind};
ghost use Rattle.pr_script.specs.declared.kind.Kind.TheVariants as kinds;
ghost use Rattle.pr_serve.specs.Asks.{ask_text};
ghost use Rattle.pr_serve.specs.declared.ask.Ask.{Ask as Asking};
ghost use Rattle.pr_story.specs.History.{Stream};
ghost use Rattle.pr_text.specs.Transcripts.{stream_of};
ghost use Rattle.pr_top.specs.Asked.{IsAskFor, IsAsksText};
ghost use Rattle.std.specs.Prelude.{◌≡◌, ◌≢◌, ◌<◌, ◌++◌, IfOk, OnOk, false, length, true};

use pr_inval::Bytes;
use pr_node::Node;
use pr_script::{Decl, Kind, is_kind};
use pr_serve::{Ask, MOST_TURNS};
use pr_sets::NameSet;
use pr_stamps::{NoMemory, Seq};
use std::alloc::Global;

/// A node that asks for its streams, and its number.
#[derive(Clone, Copy)]
pub struct Asker<'a> {
    pub number: u32,
    pub node: &'a Node,
}

impl Asker<'_> {
    /// Its asks for those of the declared streams that end at it, each in the time of `Node::start`.
    pub fn asks(&self, alloc: Global, decls: &[Decl]) -> Result<Bytes, NoMemory>
        requires good { AreGoodDecls decls.now }
        requires own { self.now.number ≡ (means self.now.node.now).id }
        requires works { (means self.now.node.now).spent ≡ false }
        ensures { IfOk result (IsAsksText decls.now (means self.now.node.now).sets self.now.number (means self.now.node.now).journal) }
    {
        let mut text = Seq::new(alloc);
        let mut number = 0;
        for decl in decls {
            if is_kind(Kind::Stream, decl) {
                self.add(alloc, number, decl, &mut text)?;
                number += 1;
            }
        }
        Ok(text)
    }

    // Adds its ask for the stream of this number, if that ends at it.
    fn add(&self, alloc: Global, number: u32, decl: &Decl, out: &mut Bytes) -> Result<(), NoMemory>
        requires own { self.now.number ≡ (means self.now.node.now).id }
        requires works { (means self.now.node.now).spent ≡ false }
        requires stream { is_kind kinds.Stream decl.now ≡ true }
        requires some { 0 < length (stream_of decl.now).names }
        ensures to { OnOk result ((stream_of decl.now).destination ≡ self.now.number → (q : Asking) × IsAskFor (means self.now.node.now).sets self.now.number (means self.now.node.now).journal number (stream_of decl.now) q × (out.new ≡ out.old ++ ask_text q)) }
        ensures elsewhere { OnOk result ((stream_of decl.now).destination ≢ self.now.number → out.new ≡ out.old) }
    {
        match decl {
            Decl::Stream {
                dest,
                sub,
                bodies,
                ..
            } if *dest == self.number => self.ask(alloc, number, sub, *bodies)?.write(out),
            _ => Ok(()),
        }
    }

    // Its ask for a stream of these names.
    fn ask(&self, alloc: Global, stream: u32, sub: &NameSet, bodies: bool) -> Result<Ask, NoMemory>
        requires own { self.now.number ≡ (means self.now.node.now).id }
        requires works { (means self.now.node.now).spent ≡ false }
        ensures { (of : Stream) → of.names ≡ sub.now → of.bodies ≡ bodies → IfOk result (IsAskFor (means self.now.node.now).sets self.now.number (means self.now.node.now).journal stream of) }
    {
        let start = self.node.start(sub);
        Ok(Ask {
            stream,
            start,
            sub: sub.copy(alloc)?,
            bodies,
            turns: MOST_TURNS,
        })
    }
}
