// Lines of commands of clients.
ghost use Rattle.pr_script.specs.Fields.{Gives};
ghost use Rattle.pr_script.specs.Lines.{client_fits, delete_line, expect_line, move_line, read_line, want_at, want_fits, want_of, write_line};
ghost use Rattle.pr_script.specs.Reading.{Fits};
ghost use Rattle.std.specs.Prelude.{◌≡◌, IfOk};

use crate::fields::{blank, field};
use crate::item::Item;
use crate::kind::Kind;
use crate::known::Known;
use crate::parts::{client_and_node, client_name_text, label_and_name};
use crate::refusal::Refusal;
use crate::text::end_text;
use crate::{Command, Want};
use std::alloc::Global;

// Whether the client has a job in the phase, or there is a place for one.
fn client_fits(known: &Known, client: u32) -> bool
    ensures { result ≡ client_fits known.now client }
{
    if !known.in_phase {
        return true;
    }
    let flows = known.flows.len();
    let clients = known.clients.len();
    if known.clients.has(client) {
        flows <= 64 && clients <= 64 - flows
    } else {
        flows < 64 && clients < 64 - flows
    }
}

#[tactic(auto, unfolding(crate::specs::Lines::write_line))]
pub fn write(alloc: Global, known: &Known, rest: &[u8]) -> Result<Item, Refusal>
    ensures gives { Gives (λ x. x) result (write_line known.now rest.now) }
    ensures fits { IfOk result (Fits known.now) }
{
    let written = client_name_text(alloc, known, rest)?;
    if written.text.len() > 1024 || !client_fits(known, written.client) {
        return Err(Refusal::Why(10));
    }
    Ok(Item::Command(Command::Write {
        client: written.client,
        name: written.name,
        body: written.text,
    }))
}

#[tactic(auto, unfolding(crate::specs::Lines::delete_line))]
pub fn delete(known: &Known, rest: &[u8]) -> Result<Item, Refusal>
    ensures gives { Gives (λ x. x) result (delete_line known.now rest.now) }
    ensures fits { IfOk result (Fits known.now) }
{
    let (client, name) = label_and_name(Kind::Client, known, rest)?;
    if !client_fits(known, client) {
        return Err(Refusal::Why(10));
    }
    Ok(Item::Command(Command::Delete { client, name }))
}

#[tactic(auto, unfolding(crate::specs::Lines::read_line))]
pub fn read(known: &Known, rest: &[u8]) -> Result<Item, Refusal>
    ensures gives { Gives (λ x. x) result (read_line known.now rest.now) }
    ensures fits { IfOk result (Fits known.now) }
{
    let (client, name) = label_and_name(Kind::Client, known, rest)?;
    if !client_fits(known, client) {
        return Err(Refusal::Why(10));
    }
    Ok(Item::Command(Command::Read { client, name }))
}

#[tactic(auto, unfolding(crate::specs::Lines::move_line))]
pub fn move_client(known: &Known, rest: &[u8]) -> Result<Item, Refusal>
    ensures gives { Gives (λ x. x) result (move_line known.now rest.now) }
    ensures fits { IfOk result (Fits known.now) }
{
    let (client, node) = client_and_node(known, rest)?;
    if known.in_phase {
        return Err(Refusal::Why(12));
    }
    Ok(Item::Command(Command::Move { client, node }))
}

#[tactic(auto, unfolding(crate::specs::Lines::want_of))]
fn want_of(word: &[u8]) -> Result<Want, Refusal>
    ensures { Gives (λ x. x) result (want_of word.now) }
{
    if word == b"never".as_slice() {
        Ok(Want::Never)
    } else if word == b"imprecise".as_slice() {
        Ok(Want::Imprecise)
    } else if word == b"body".as_slice() {
        Ok(Want::Body)
    } else if word == b"gone".as_slice() {
        Ok(Want::Gone)
    } else if word == b"behind".as_slice() {
        Ok(Want::Behind)
    } else {
        Err(Refusal::Why(3))
    }
}

#[tactic(auto, unfolding(crate::specs::Lines::want_at))]
fn want(alloc: Global, rest: &[u8]) -> Result<Want, Refusal>
    ensures { Gives (λ x. x) result (want_at rest.now) }
{
    let (word, rest) = field(rest)?;
    if word == b"value".as_slice() {
        return Ok(Want::Value(end_text(alloc, rest)?));
    }
    if !blank(rest) {
        return Err(Refusal::Why(3));
    }
    want_of(word)
}

fn want_fits(want: &Want) -> bool
    ensures { result ≡ want_fits want.now }
{
    match want {
        Want::Value(text) => text.len() <= 1024,
        _ => true,
    }
}

#[tactic(auto, unfolding(crate::specs::Lines::expect_line))]
pub fn expect(alloc: Global, known: &Known, rest: &[u8]) -> Result<Item, Refusal>
    ensures gives { Gives (λ x. x) result (expect_line known.now rest.now) }
    ensures fits { IfOk result (Fits known.now) }
{
    let want = want(alloc, rest)?;
    if !want_fits(&want) {
        return Err(Refusal::Why(10));
    }
    if !known.after_read || known.in_phase {
        return Err(Refusal::Why(12));
    }
    Ok(Item::Command(Command::Expect { want }))
}
