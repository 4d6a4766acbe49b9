// What a line says.
ghost use Rattle.pr_script.specs.Fields.{Gives, skip_spaces};
ghost use Rattle.pr_script.specs.Lines.{line_item, word_line};
ghost use Rattle.pr_script.specs.Reading.{Fits, is_skipped};
ghost use Rattle.std.specs.Prelude.{◌≡◌, IfOk};

use crate::clients::{delete, expect, move_client, read, write};
use crate::declarations::{client, node, stream};
use crate::fields::{field, plain, unspaced};
use crate::item::Item;
use crate::known::Known;
use crate::nodes::{conflicts, cut, drop_body, end, phase, settle, state};
use crate::refusal::Refusal;
use crate::streams::{attach, checkpoint, deliver, detach, flow, send};
use crate::word::{Word, word_of};
use std::alloc::Global;

/// Whether the line has spaces only, or is a comment.
pub fn skipped(line: &[u8]) -> bool
    ensures { result ≡ is_skipped line.now }
{
    match unspaced(line) {
        [] => true,
        [b, ..] => *b == b'#',
    }
}

/// What the line says after the lines before, or the least rule that it breaks.
#[tactic(auto, unfolding(crate::specs::Lines::line_item))]
pub fn item(alloc: Global, known: &Known, line: &[u8]) -> Result<Item, Refusal>
    ensures gives { Gives (λ x. x) result (line_item known.now line.now) }
    ensures fits { IfOk result (Fits known.now) }
{
    if !plain(line) {
        return Err(Refusal::Why(1));
    }
    let (first, rest) = field(line)?;
    let Some(word) = word_of(first) else {
        return Err(Refusal::Why(2));
    };
    by_word(alloc, word, known, rest)
}

#[tactic(auto, unfolding(crate::specs::Lines::word_line))]
fn by_word(alloc: Global, word: Word, known: &Known, rest: &[u8]) -> Result<Item, Refusal>
    ensures gives { Gives (λ x. x) result (word_line word known.now rest.now) }
    ensures fits { IfOk result (Fits known.now) }
{
    match word {
        Word::Node => node(alloc, known, rest),
        Word::Client => client(alloc, known, rest),
        Word::Stream => stream(alloc, known, rest),
        Word::Attach => attach(known, rest),
        Word::Detach => detach(known, rest),
        Word::Send => send(known, rest),
        Word::Checkpoint => checkpoint(known, rest),
        Word::Deliver => deliver(known, rest),
        Word::Flow => flow(known, rest),
        Word::Write => write(alloc, known, rest),
        Word::Delete => delete(known, rest),
        Word::Read => read(known, rest),
        Word::Move => move_client(known, rest),
        Word::Expect => expect(alloc, known, rest),
        Word::Cut => cut(known, rest),
        Word::State => state(known, rest),
        Word::Drop => drop_body(known, rest),
        Word::Conflicts => conflicts(known, rest),
        Word::Settle => settle(known, rest),
        Word::Phase => phase(known, rest),
        Word::End => end(known, rest),
    }
}
