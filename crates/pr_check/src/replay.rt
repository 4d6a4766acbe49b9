// Lines that are compared with those of what was made.
ghost use Rattle.pr_check.specs.Asking.{IsReplayed, IsSayable};
ghost use Rattle.pr_check.specs.Judging.{end_line};
ghost use Rattle.pr_sim.specs.Making.{declared_of};
ghost use Rattle.pr_sim.specs.Running.{IsRunning, Tells};
ghost use Rattle.pr_story.specs.History.{NodeEntry};
ghost use Rattle.pr_text.specs.Lines.{sentence};
ghost use Rattle.pr_text.specs.Numbers.{counts_of};
ghost use Rattle.std.specs.Prelude.{◌≡◌, ◌+◌, ◌∷◌, Bool, IfOk, List, length, ℕ};
ghost use Rattle.std.specs.Str.{bytes_eq};

use crate::line::is_printed;
use crate::making::make;
use crate::said::Said;
use pr_script::Decls;
use pr_sim::Engine;
use pr_stamps::{NoMemory, Seq};
use pr_text::ok;
use std::alloc::Global;

/// Makes what the line says, and tells whether the entry that came of it has this line. The engine goes on only where it
/// has.
pub fn replay(
    alloc: Global,
    engine: &mut Engine,
    decls: &Decls,
    said: Said,
    line: &[u8],
) -> Result<bool, NoMemory>
    requires kept { (attached : ℕ → Bool) × (h : List NodeEntry) × IsRunning (declared_of decls.now.list) attached h engine.old }
    requires sayable { IsSayable (counts_of decls.now.list) said }
    ensures { (attached : ℕ → Bool) (h : List NodeEntry) → IsRunning (declared_of decls.now.list) attached h engine.old → IsReplayed decls.now.list said line.now attached h engine.new result }
{
    if make(engine, said)? {
        has_line(alloc, engine, decls, line)
    } else {
        Ok(false)
    }
}

// Whether the last entry has this line.
fn has_line(alloc: Global, engine: &Engine, decls: &Decls, line: &[u8]) -> Result<bool, NoMemory>
    requires { (h : List NodeEntry) × (e : NodeEntry) × Tells (declared_of decls.now.list) (e ∷ h) engine.now }
    ensures { (h : List NodeEntry) (e : NodeEntry) → Tells (declared_of decls.now.list) (e ∷ h) engine.now → IfOk result (λ is. is ≡ bytes_eq (sentence decls.now.list e.node e.entry.event) line.now) }
{
    let at = engine.history().len() - 1;
    is_printed(
        alloc,
        decls,
        engine.node_of(at),
        &engine.entry(at).event,
        line,
    )
}

/// Whether the line is the last one of a transcript, behind what the engine has made.
pub fn is_last_line(
    alloc: Global,
    engine: &Engine,
    decls: &Decls,
    line: &[u8],
) -> Result<bool, NoMemory>
    requires { (h : List NodeEntry) × Tells (declared_of decls.now.list) h engine.now }
    ensures { (h : List NodeEntry) → Tells (declared_of decls.now.list) h engine.now → IfOk result (λ is. is ≡ bytes_eq (end_line (length decls.now.list + length h)) line.now) }
{
    let lines = decls.as_slice().len() + engine.history().len();
    is_ok(alloc, lines as u64, line)
}

// Whether the line is `ok` and this number.
fn is_ok(alloc: Global, lines: u64, line: &[u8]) -> Result<bool, NoMemory>
    ensures { IfOk result (λ is. is ≡ bytes_eq (end_line lines) line.now) }
{
    let mut text = Seq::new(alloc);
    ok(lines, &mut text)?;
    text.truncate(text.len() - 1);
    Ok(text.as_slice() == line)
}
