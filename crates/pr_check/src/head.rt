// Head lines.
ghost use Rattle.pr_check.specs.Heads.{AreAccepted, Declares, begins_head, more_if};
ghost use Rattle.pr_script.specs.Labels.{AreLabels};
ghost use Rattle.pr_text.specs.Heads.{heads_text};
ghost use Rattle.std.specs.Prelude.{◌≡◌, ◌++◌, ◌∷◌, [], IfOk, IfSome};

use pr_script::{Bytes, Decls, ScriptFault, read};
use pr_stamps::{NoMemory, Seq};
use pr_text::heads;
use std::alloc::Global;

/// Whether the line begins as a head line does.
pub fn begins_head(line: &[u8]) -> bool
    ensures { result ≡ begins_head line.now }
{
    line.starts_with(b"node ") || line.starts_with(b"client ") || line.starts_with(b"stream ")
}

/// No declarations, which have no head lines. It takes no memory.
pub fn no_decls(alloc: Global) -> Decls
    ensures list { result.list ≡ [] }
    ensures accepted { AreAccepted result.list }
    ensures labels { AreLabels result.list }
{
    Decls::new(alloc)
}

/// The declarations with one more, whose head line this is, without its end; None where it is none. All head lines are
/// printed and read again, so it takes time linear in them, and for each label of a node in them in the declarations.
pub fn read_head(alloc: Global, decls: &Decls, line: &[u8]) -> Result<Option<Decls>, NoMemory>
    requires { AreAccepted decls.now.list }
    ensures head { IfOk result (Declares decls.now.list line.now) }
    ensures accepted { IfOk result (λ found. IfSome found (λ more. AreAccepted more.list)) }
    ensures labels { IfOk result (λ found. IfSome found (λ more. AreLabels more.list)) }
{
    let text = with_line(alloc, decls, line)?;
    let bytes = text.as_slice();
    match read(alloc, bytes) {
        Ok(script) => more_if(alloc, script.decls, decls.as_slice().len(), bytes),
        Err(ScriptFault::NoMemory) => Err(NoMemory),
        Err(ScriptFault::Bad { .. }) => Ok(None),
    }
}

// The head lines, and the line.
fn with_line(alloc: Global, decls: &Decls, line: &[u8]) -> Result<Bytes, NoMemory>
    ensures { IfOk result (λ text. text ≡ heads_text decls.now.list ++ (line.now ++ 10 ∷ [])) }
{
    let mut text = Seq::new(alloc);
    heads(alloc, decls, &mut text)?;
    text.extend(line)?;
    text.push(b'\n')?;
    Ok(text)
}

// The declarations, where they are one more than there were and the text is their head lines.
fn more_if(alloc: Global, more: Decls, count: usize, text: &[u8]) -> Result<Option<Decls>, NoMemory>
    requires { AreLabels more.list }
    ensures value { IfOk result (λ found. found ≡ more_if more count text.now) }
    ensures labels { IfOk result (λ found. IfSome found (λ more. AreLabels more.list)) }
{
    if more.as_slice().is_empty() || more.as_slice().len() - 1 != count {
        return Ok(None);
    }
    let mut printed = Seq::new(alloc);
    heads(alloc, &more, &mut printed)?;
    if printed.as_slice() == text {
        Ok(Some(more))
    } else {
        Ok(None)
    }
}
