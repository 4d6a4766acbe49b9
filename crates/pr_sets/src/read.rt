// Reading sets.
ghost use Rattle.pr_names.specs.Span.{Span, IsSpan};
ghost use Rattle.pr_sets.specs.Spans.{IsSet};
ghost use Rattle.pr_sets.specs.Text.{items, items_read, list_of, set_read};
ghost use Rattle.std.specs.List.{position};
ghost use Rattle.std.specs.Prelude.{◌≡◌, ◌<◌, ◌⊎◌, ◌==◌, All, [], Err, Ok, length, IfSome, IfOk, IfErr, count_by};

use crate::SetFault;
use crate::joiner::Joiner;
use pr_names::{Interval, Name};
use pr_stamps::{NoMemory, Seq};
use std::alloc::Global;

/// The one list of the set that the bytes spell, or the first fault.
pub fn read(alloc: Global, bytes: &[u8], most: usize) -> Result<Seq<Interval>, SetFault>
    ensures ok { IfOk result (λ set. set_read bytes.now most ≡ Ok set) }
    ensures set { IfOk result (λ set. IsSet set) }
    ensures err { IfErr result (λ fault. (fault ≡ SetFault.NoMemory) ⊎ (set_read bytes.now most ≡ Err fault)) }
{
    if bytes == b"~".as_slice() {
        return Ok(Seq::new(alloc));
    }
    if commas(bytes) >= most {
        return Err(SetFault::TooMany);
    }
    let parts = read_items(alloc, bytes)?;
    Ok(listed(alloc, parts)?)
}

fn commas(bytes: &[u8]) -> usize
    ensures { result ≡ count_by (λ b. b == 44) bytes.now }
{
    bytes.iter().filter(|b| **b == b',').count()
}

// The items' intervals, in the order written.
fn read_items(alloc: Global, bytes: &[u8]) -> Result<Vec<Interval>, SetFault>
    ensures ok { IfOk result (λ parts. items_read (items bytes.now) 0 [] ≡ Ok parts.items) }
    ensures spans { IfOk result (λ parts. All IsSpan parts.items) }
    ensures err { IfErr result (λ fault. (fault ≡ SetFault.NoMemory) ⊎ (items_read (items bytes.now) 0 [] ≡ Err fault)) }
{
    let mut parts = Vec::new(alloc);
    let mut rest = bytes;
    let mut index = 0;
    while let Some(at) = first_comma(rest) {
        match Interval::read(&rest[..at]) {
            Ok(part) => parts.push(part)?,
            Err(fault) => return Err(SetFault::Item { index, fault }),
        }
        rest = &rest[at + 1..];
        index += 1;
    }
    match Interval::read(rest) {
        Ok(part) => parts.push(part)?,
        Err(fault) => return Err(SetFault::Item { index, fault }),
    }
    Ok(parts)
}

fn first_comma(bytes: &[u8]) -> Option<usize>
    ensures value { result ≡ position (λ b. b == 44) bytes.now }
    ensures within { IfSome result (λ at. at < length bytes.now) }
{
    bytes.iter().position(|b| *b == b',')
}

// The one list of the names in these intervals: put in order, and joined where they overlap or touch.
fn listed(alloc: Global, mut parts: Vec<Interval>) -> Result<Seq<Interval>, NoMemory>
    requires { All IsSpan parts.items }
    ensures list { IfOk result (λ set. set ≡ list_of parts.items) }
    ensures set { IfOk result (λ set. IsSet set) }
{
    parts.sort_unstable_by_key(
        |part: &Interval| -> Name
            ensures { result ≡ part.now.lo }
        { part.lo() },
    );
    let mut joiner = Joiner::new(alloc);
    joiner.put_all(&parts)?;
    Ok(joiner.finish())
}
