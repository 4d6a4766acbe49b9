// The parts of a field.
ghost use Rattle.pr_check.specs.Parts.{after, before, is_hyphen, target_read};
ghost use Rattle.pr_check.specs.Fields.{Gives};
ghost use Rattle.pr_script.specs.Fields.{value_of};
ghost use Rattle.pr_script.specs.Labels.{AreLabels, number_among};
ghost use Rattle.pr_script.specs.Labels as labels;
ghost use Rattle.pr_script.specs.Texts.{last_text};
ghost use Rattle.pr_sets.specs.Spans.{IsSet};
ghost use Rattle.pr_story.specs.Ranges.{IsBytes};
ghost use Rattle.pr_text.specs.Numbers.{Has};
ghost use Rattle.std.specs.List.{filter, position};
ghost use Rattle.std.specs.Prelude.{◌≡◌, ◌<◌, ◌==◌, IfOk, IfSome, length};
ghost use Rattle.std.specs.Str.{bytes_eq};

use crate::refusal::Refusal;
use pr_script::{Bytes, Decl, Kind, is_kind, label_of, read_text};
use pr_sets::{NameSet, SetFault};
use std::alloc::Global;

/// What stands before the first byte of this value, and behind it; nothing stands behind where there is none.
pub fn cut(byte: u8, bytes: &[u8]) -> (&[u8], &[u8])
    ensures before { result.0.now ≡ before byte bytes.now }
    ensures after { result.1.now ≡ after byte bytes.now }
{
    match place_of(byte, bytes) {
        Some(at) => (&bytes[..at], &bytes[at + 1..]),
        None => (bytes, b"".as_slice()),
    }
}

fn place_of(byte: u8, bytes: &[u8]) -> Option<usize>
    ensures value { result ≡ position (λ x. x == byte) bytes.now }
    ensures within { IfSome result (λ at. at < length bytes.now) }
{
    bytes.iter().position(|b| *b == byte)
}

/// Whether it is a hyphen, which stands for none.
pub fn is_hyphen(bytes: &[u8]) -> bool
    ensures { result ≡ is_hyphen bytes.now }
{
    bytes == b"-".as_slice()
}

/// The number of the label among those of its kind, in time linear in the declarations.
pub fn number(decls: &[Decl], kind: Kind, label: &[u8]) -> Option<u32>
    requires { AreLabels decls.now }
    ensures number { result ≡ number_among kind decls.now label.now }
    ensures declared { IfSome result (Has decls.now kind) }
{
    match place(decls, kind, label) {
        Some(number) => Some(number as u32),
        None => None,
    }
}

fn place(decls: &[Decl], kind: Kind, label: &[u8]) -> Option<usize>
    ensures { result ≡ position (λ d. bytes_eq label.now (labels.label_of d)) (filter (labels.is_kind kind) decls.now) }
{
    decls
        .iter()
        .filter(|decl| is_kind(kind, decl))
        .position(|decl| label == label_of(decl))
}

/// The target that the bytes spell, of any count of intervals.
#[tactic(auto, unfolding(crate::specs::Parts::target_read))]
pub fn target(alloc: Global, bytes: &[u8]) -> Result<NameSet, Refusal>
    ensures reads { Gives result (target_read bytes.now) }
    ensures set { IfOk result IsSet }
{
    match NameSet::read(alloc, bytes, bytes.len()) {
        Ok(set) => {
            let _ = set.parts();
            Ok(set)
        }
        Err(SetFault::NoMemory) => Err(Refusal::NoMemory),
        Err(_) => Err(Refusal::Unread),
    }
}

/// The text that the bytes quote.
pub fn text(alloc: Global, bytes: &[u8]) -> Result<Bytes, Refusal>
    ensures reads { Gives result (value_of (last_text bytes.now)) }
    ensures bytes { IfOk result IsBytes }
{
    match read_text(alloc, bytes)? {
        Some(text) => {
            in_range(text.as_slice());
            Ok(text)
        }
        None => Err(Refusal::Unread),
    }
}

fn in_range(bytes: &[u8])
    ensures { IsBytes bytes.now }
{}
