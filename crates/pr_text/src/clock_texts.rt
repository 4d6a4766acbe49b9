// Texts of clocks, from line to line.
ghost use Rattle.pr_script.specs.Labels.{labels_of};
ghost use Rattle.pr_script.specs.declared.kind.Kind.TheVariants as kinds;
ghost use Rattle.pr_text.specs.Texts.{AreOfNodes, clocks, listed};
ghost use Rattle.pr_text.specs.Kept.{AreTextsOf};
ghost use Rattle.std.specs.Prelude.{◌≡◌, ◌++◌, [], ℕ, IfOk, IfSome, List, OnOk};

use crate::piece::Piece;
use crate::pieces::{pieces_of, push_pieces};
use crate::vector_text::{VectorText, first_above};
use pr_inval::Kind as Told;
use pr_script::{Bytes, Decls, Kind};
use pr_stamps::{NoMemory, Seq};
use pr_story::Event;
use pr_vectors::PackedVector;
use std::alloc::Global;
use std::marker::Model;
use std::mem;

// With fewer nodes no texts are kept: it would cost what it saves.
const FEWEST: usize = 3;

/// The text of a clock of each node, or of none; those of where the message that was sent last starts and ends; and for
/// each node the one of its own vector that a line told last. The lines to come have these vectors again, or most of their
/// clocks. Contracts see it as these nodes' labels.
#[derive(Drop)]
pub struct ClockTexts {
    alloc: Global,
    pieces: Vec<Piece>,
    from: VectorText,
    to: VectorText,
    own: Vec<VectorText>,
    // The node of the line at hand.
    node: usize,
    spare: Bytes,
}

impl Model for ClockTexts {
    ghost use Rattle.std.specs.Prelude.{List, ℕ};
    ghost use Rattle.pr_text.specs.Kept.{AreTextsOf, IsTextOf};

    ghost Value = { List (List ℕ) };

    ghost view = { λ k. k.pieces.items };

    ghost invariant = { λ k. IsTextOf k.pieces.items k.from × IsTextOf k.pieces.items k.to × AreTextsOf k.pieces.items k.own.items };
}

impl ClockTexts {
    /// Of no node, which takes no memory.
    pub fn new(alloc: Global) -> ClockTexts
        ensures { result ≡ [] }
    {
        ClockTexts {
            alloc,
            pieces: Vec::new(alloc),
            from: VectorText::new(alloc),
            to: VectorText::new(alloc),
            own: Vec::new(alloc),
            node: 0,
            spare: Seq::new(alloc),
        }
    }

    // Whether texts are kept for these nodes.
    pub(crate) fn is_for(decls: &Decls) -> bool {
        decls.labels(Kind::Node).len() >= FEWEST
    }

    // Of each node, where it is of none.
    pub(crate) fn begin(&mut self, decls: &Decls) -> Result<(), NoMemory>
        requires { AreOfNodes decls.now.list self.old }
        ensures ok { OnOk result (self.new ≡ labels_of kinds.Node decls.now.list) }
        ensures nodes { AreOfNodes decls.now.list self.new }
    {
        if self.pieces.is_empty() {
            let labels = decls.labels(Kind::Node);
            let pieces = pieces_of(self.alloc, labels)?;
            let own = no_texts(self.alloc, labels.len())?;
            *self = ClockTexts {
                alloc: self.alloc,
                pieces,
                from: VectorText::new(self.alloc),
                to: VectorText::new(self.alloc),
                own,
                node: 0,
                spare: Seq::new(self.alloc),
            };
        }
        Ok(())
    }

    // Adds what `push_vector` adds for the same vector over these nodes' labels: a kept vector as one copy, and else each
    // kept clock.
    pub(crate) fn push(&self, vector: &PackedVector, text: &mut Bytes) -> Result<(), NoMemory>
        ensures { OnOk result (text.new ≡ text.old ++ listed (clocks self.now 0 vector.now)) }
    {
        match self.kept(vector) {
            Some(kept) => text.extend(kept),
            None => push_pieces(self.pieces.as_slice(), vector, text),
        }
    }

    // The vector's text, where that is kept.
    fn kept(&self, vector: &PackedVector) -> Option<&[u8]>
        ensures { IfSome result (λ kept. kept.now ≡ listed (clocks self.now 0 vector.now)) }
    {
        match self.to.of(vector) {
            Some(kept) => Some(kept),
            None => self.kept_before(vector),
        }
    }

    // The same, but for where the message that was sent last ends.
    fn kept_before(&self, vector: &PackedVector) -> Option<&[u8]>
        ensures { IfSome result (λ kept. kept.now ≡ listed (clocks self.now 0 vector.now)) }
    {
        match (self.from.of(vector), self.own.get(self.node)) {
            (Some(kept), _) => Some(kept),
            (None, Some(own)) => own.of(vector),
            (None, None) => None,
        }
    }

    // Keeps where a message that the node sends starts and ends, or the node's own vector: those of the event's line, and
    // most of those of the lines to come.
    pub(crate) fn expect(&mut self, node: u32, event: &Event) -> Result<(), NoMemory>
        ensures { self.new ≡ self.old }
    {
        self.node = node as usize;
        match event {
            Event::Sent { msg } => self.keep(&msg.kind),
            Event::Accepted { at, .. }
            | Event::Wrote { after: at, .. }
            | Event::Answered { at, .. } => self.keep_own(at),
            _ => Ok(()),
        }
    }

    // Unless the message that was sent last starts or ends there.
    fn keep_own(&mut self, vector: &PackedVector) -> Result<(), NoMemory>
        ensures { self.new ≡ self.old }
    {
        if self.kept(vector).is_some() || self.node >= self.own.len() {
            return Ok(());
        }
        self.own[self.node].renew(self.alloc, &mut self.pieces, &mut self.spare, vector)
    }

    fn keep(&mut self, kind: &Told) -> Result<(), NoMemory>
        ensures { self.new ≡ self.old }
    {
        match kind {
            Told::Precise { from, to, write } => {
                let node = write.stamp.node() as usize;
                self.keep_from(from, node)?;
                self.keep_to(to, node)
            }
            Told::Imprecise { from, to, .. } => {
                let node = first_above(from, to);
                self.keep_from(from, node)?;
                self.keep_to(to, node)
            }
            Told::Checkpoint { to, .. } => self.keep_to(to, 0),
            Told::Body { .. } => Ok(()),
        }
    }

    // Mostly it is where the message before ends, or where that starts.
    fn keep_from(&mut self, vector: &PackedVector, node: usize) -> Result<(), NoMemory>
        ensures { self.new ≡ self.old }
    {
        if self.from.of(vector).is_some() {
            return Ok(());
        }
        mem::swap(&mut self.from, &mut self.to);
        self.from
            .keep(self.alloc, &mut self.pieces, &self.to, vector, node)
    }

    fn keep_to(&mut self, vector: &PackedVector, node: usize) -> Result<(), NoMemory>
        ensures { self.new ≡ self.old }
    {
        self.to
            .keep(self.alloc, &mut self.pieces, &self.from, vector, node)
    }
}

// No text for each node.
fn no_texts(alloc: Global, nodes: usize) -> Result<Vec<VectorText>, NoMemory>
    ensures { (labels : List (List ℕ)) → IfOk result (λ own. AreTextsOf labels own.items) }
{
    let mut own = Vec::new(alloc);
    for _ in 0..nodes {
        own.push(VectorText::new(alloc))?;
    }
    Ok(own)
}
