// A piece goes over a wire.
ghost use Rattle.pr_flow.specs.Moving.{IsNotCut, IsPassed, IsPut, IsTaken};
ghost use Rattle.pr_flow.specs.declared.passing.Passed.TheVariants as passed;
ghost use Rattle.pr_wires.specs.Calls.{HasJust};
ghost use Rattle.std.specs.Prelude.{◌≡◌, ◌≤◌, ◌<◌, ◌+◌, IsOk, IsSome, IsTrue, length};

use pr_story::Cause;
use pr_wires::Wire;

/// A piece was taken again; the wire failed or ended; or other bytes were taken, so many of them.
#[derive(Clone, Copy)]
pub enum Passed {
    Whole,
    Cut(Cause),
    Lied { len: usize },
}

/// Puts a piece into a wire that holds nothing, and takes it again.
pub fn pass<W: Wire>(wire: &mut W, piece: &[u8], bytes: &mut [u8]) -> Passed
    requires some { 0 < length piece.now }
    requires most { length piece.now ≤ 4096 }
    requires room { length bytes.old ≡ length piece.now }
    requires under { (W.state wire.old).under ≡ 0 }
    ensures moved { IsPassed (W.state wire.old) (W.state wire.new) piece.now bytes.new result }
    ensures sound { IsTrue (W.state wire.old).sound → result ≡ passed.Whole }
    ensures just { HasJust (W.state wire.old).held (W.state wire.old).under }
{
    match put_all(wire, piece) {
        Ok(()) => take_all(wire, piece, bytes),
        Err(cause) => Passed::Cut(cause),
    }
}

// Puts the whole piece, by as many calls as the wire asks for.
fn put_all<W: Wire>(wire: &mut W, piece: &[u8]) -> Result<(), Cause>
    requires some { 0 < length piece.now }
    requires under { (W.state wire.old).under + length piece.now ≤ 4096 }
    ensures moved { IsPut (W.state wire.old) (W.state wire.new) piece.now result }
    ensures sound { IsTrue (W.state wire.old).sound → IsOk result × IsSome (W.state wire.old).held }
    ensures just { HasJust (W.state wire.old).held (W.state wire.old).under }
{
    let mut put = 0;
    while put < piece.len() {
        match wire.put(&piece[put..]) {
            Ok(0) => return Err(Cause::Ended),
            Ok(count) => put += count,
            Err(_) => return Err(Cause::Failed),
        }
    }
    Ok(())
}

// Takes what is under way, by as many calls as the wire asks for, each of which asks for all that is left of it.
fn take_all<W: Wire>(wire: &mut W, piece: &[u8], bytes: &mut [u8]) -> Passed
    requires room { length bytes.old ≡ length piece.now }
    requires under { (W.state wire.old).under ≡ length piece.now }
    ensures moved { IsTaken (W.state wire.old) (W.state wire.new) piece.now bytes.new result }
    ensures cut { IsTrue (W.state wire.old).sound → IsNotCut result }
    ensures length { length bytes.new ≡ length piece.now }
{
    let mut at = 0;
    while at < piece.len() {
        let count = match wire.take(&mut bytes[at..]) {
            Ok(0) => return Passed::Cut(Cause::Ended),
            Ok(count) => count,
            Err(_) => return Passed::Cut(Cause::Failed),
        };
        if bytes[at..at + count] != piece[at..at + count] {
            return Passed::Lied { len: at + count };
        }
        at += count;
    }
    Passed::Whole
}
