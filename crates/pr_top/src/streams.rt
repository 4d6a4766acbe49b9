// The streams that end at a node.
ghost use Rattle.pr_script.specs.Good.{AreGoodDecls};
ghost use Rattle.pr_script.specs.Labels.{is_kind};
ghost use Rattle.pr_script.specs.declared.kind.Kind.TheVariants as kinds;
ghost use Rattle.pr_text.specs.Transcripts.{stream_of};
ghost use Rattle.pr_top.specs.Asked.{streams_to};
ghost use Rattle.std.specs.Prelude.{◌≡◌, ◌≢◌, ◌++◌, ◌∷◌, [], IfOk, OnOk, true};

use pr_script::{Decl, Kind, is_kind};
use pr_stamps::{NoMemory, Seq};
use std::alloc::Global;

/// The numbers of the streams that end at the node, in order, in time linear in the declarations.
pub fn streams_to(alloc: Global, decls: &[Decl], node: u32) -> Result<Seq<u32>, NoMemory>
    requires { AreGoodDecls decls.now }
    ensures { IfOk result (λ list. list ≡ streams_to decls.now node) }
{
    let mut list = Seq::new(alloc);
    let mut number = 0;
    for decl in decls {
        if is_kind(Kind::Stream, decl) {
            add(number, decl, node, &mut list)?;
            number += 1;
        }
    }
    Ok(list)
}

// Adds the number of the stream, if that ends at the node.
fn add(number: u32, decl: &Decl, node: u32, list: &mut Seq<u32>) -> Result<(), NoMemory>
    requires { is_kind kinds.Stream decl.now ≡ true }
    ensures to { OnOk result ((stream_of decl.now).destination ≡ node → list.new ≡ list.old ++ number ∷ []) }
    ensures elsewhere { OnOk result ((stream_of decl.now).destination ≢ node → list.new ≡ list.old) }
{
    match decl {
        Decl::Stream { dest, .. } if *dest == node => list.push(number),
        _ => Ok(()),
    }
}
