// The head lines.
ghost use Rattle.pr_text.specs.Heads.{heads_text};
ghost use Rattle.std.specs.Prelude.{◌≡◌, ◌++◌, OnErr, OnOk};

use pr_script::{Bytes, Decls, print_decls};
use pr_stamps::{NoMemory, Seq};
use std::alloc::Global;

/// Adds a line for each declaration, in time linear in the lines and, for each label of a node in them, in the
/// declarations. A refusal leaves `out`.
pub fn heads(alloc: Global, decls: &Decls, out: &mut Bytes) -> Result<(), NoMemory>
    ensures ok { OnOk result (out.new ≡ out.old ++ heads_text decls.now.list) }
    ensures err { OnErr result (out.new ≡ out.old) }
{
    let mut text = Seq::new(alloc);
    print_decls(decls.as_slice(), &mut text)?;
    out.extend(text.as_slice())
}
