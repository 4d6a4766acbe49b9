// The last lines.
#![tactic(auto, using(pr_script::proofs::Beginnings::grown))]

ghost use Rattle.pr_script.specs.Printing.{Begins};
ghost use Rattle.pr_text.specs.Endings.{bad_cause, error_line, hex_byte, lied_cause, ok_line, unmet_line};
ghost use Rattle.std.specs.List.{flat_map};
ghost use Rattle.std.specs.Prelude.{◌≡◌, ◌++◌, OnErr, OnOk, codes};

use crate::label::push_about;
use crate::stamp::push_number;
use pr_script::{Bytes, Decls, Kind, hex_digit};
use pr_stamps::NoMemory;

/// Adds `ok N`, for N lines before it. After a refusal of this and the others here a part of the line may stand behind what `out` had.
pub fn ok(lines: u64, out: &mut Bytes) -> Result<(), NoMemory>
    ensures ok { OnOk result (out.new ≡ out.old ++ ok_line lines) }
    ensures err { OnErr result (Begins out.old out.new) }
{
    out.extend(b"ok")?;
    push_number(lines, out)?;
    out.push(b'\n')
}

/// Adds `unmet L`, for the line of an expectation.
pub fn unmet(line: u64, out: &mut Bytes) -> Result<(), NoMemory>
    ensures ok { OnOk result (out.new ≡ out.old ++ unmet_line line) }
    ensures err { OnErr result (Begins out.old out.new) }
{
    out.extend(b"unmet")?;
    push_number(line, out)?;
    out.push(b'\n')
}

/// Adds `error` and the cause.
pub fn error(cause: &[u8], out: &mut Bytes) -> Result<(), NoMemory>
    ensures ok { OnOk result (out.new ≡ out.old ++ error_line cause.now) }
    ensures err { OnErr result (Begins out.old out.new) }
{
    out.extend(b"error ")?;
    out.extend(cause)?;
    out.push(b'\n')
}

/// Adds `error line L why Y`, for a script's first bad line and its rule.
pub fn bad(line: u64, why: u8, out: &mut Bytes) -> Result<(), NoMemory>
    ensures ok { OnOk result (out.new ≡ out.old ++ error_line (bad_cause line why)) }
    ensures err { OnErr result (Begins out.old out.new) }
{
    out.extend(b"error line")?;
    push_number(line, out)?;
    out.extend(b" why")?;
    push_number(why as u64, out)?;
    out.push(b'\n')
}

/// Adds `error lied s K sent HEX got HEX`, for a message that did not come as it was sent.
pub fn lied(
    decls: &Decls,
    stream: u32,
    number: u64,
    sent: &[u8],
    got: &[u8],
    out: &mut Bytes,
) -> Result<(), NoMemory>
    ensures ok { OnOk result (out.new ≡ out.old ++ error_line (lied_cause decls.now.list stream number sent.now got.now)) }
    ensures err { OnErr result (Begins out.old out.new) }
{
    push_lied(decls, stream, number, sent, got, out)?;
    out.push(b'\n')
}

// Adds the line without its end.
fn push_lied(
    decls: &Decls,
    stream: u32,
    number: u64,
    sent: &[u8],
    got: &[u8],
    out: &mut Bytes,
) -> Result<(), NoMemory>
    ensures ok { OnOk result (out.new ≡ out.old ++ (codes "error " ++ lied_cause decls.now.list stream number sent.now got.now)) }
    ensures err { OnErr result (Begins out.old out.new) }
{
    push_about(b"error lied ", decls, Kind::Stream, stream, out)?;
    push_number(number, out)?;
    out.extend(b" sent ")?;
    push_hex(sent, out)?;
    out.extend(b" got ")?;
    push_hex(got, out)
}

fn push_hex(bytes: &[u8], out: &mut Bytes) -> Result<(), NoMemory>
    ensures ok { OnOk result (out.new ≡ out.old ++ flat_map hex_byte bytes.now) }
    ensures err { OnErr result (Begins out.old out.new) }
{
    for byte in bytes {
        out.extend(&[hex_digit(*byte / 16), hex_digit(*byte % 16)])?;
    }
    Ok(())
}
