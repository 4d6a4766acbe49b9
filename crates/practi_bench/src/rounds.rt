// Rounds of two nodes.
ghost use Rattle.std.specs.Prelude.{◌≤◌};

use crate::ask::Ask;
use crate::failed::Failed;
use crate::naming::{name, set};
use crate::pair::Pair;
use crate::work::Round;
use std::alloc::Global;
use std::mem;

/// Makes so many rounds of two nodes, and says how many entries were made. Their memory is not given back, since that is
/// no round's work.
pub fn rounds(alloc: Global, round: Round, ask: &Ask) -> Result<usize, Failed> {
    let mut pair = made_for(alloc, round)?;
    let count = repeat(&mut pair, round, ask)?;
    mem::forget(pair);
    Ok(count)
}

fn made_for(alloc: Global, round: Round) -> Result<Pair, Failed> {
    match round {
        Round::Pair | Round::Coded => Pair::new(alloc, set(alloc, b"*")?, false),
        Round::Filtered => Pair::new(alloc, set(alloc, b"h/*")?, false),
        Round::Bodies => Pair::new(alloc, set(alloc, b"*")?, true),
    }
}

fn repeat(pair: &mut Pair, round: Round, ask: &Ask) -> Result<usize, Failed> {
    for number in 0..ask.size {
        make(pair, round, number, ask.names)?;
    }
    Ok(pair.entries())
}

// The round of this number, over so many names.
fn make(pair: &mut Pair, round: Round, number: u32, names: u32) -> Result<(), Failed>
    requires { 1 ≤ names }
{
    match round {
        Round::Pair => direct(pair, number % names),
        Round::Coded => coded(pair, number % names),
        Round::Filtered => filtered(pair, number, number % names),
        Round::Bodies => bodies(pair, shuffled(number, names)),
    }
}

fn direct(pair: &mut Pair, name_number: u32) -> Result<(), Failed> {
    let name = name(b'n', name_number)?;
    pair.write(&name)?;
    pair.pass()?;
    pair.read(&name)
}

fn coded(pair: &mut Pair, name_number: u32) -> Result<(), Failed> {
    let name = name(b'n', name_number)?;
    pair.write(&name)?;
    pair.pass_coded()?;
    pair.read(&name)
}

// Each tenth write is to a name of the stream. Behind each ten there are two turns.
fn filtered(pair: &mut Pair, number: u32, name_number: u32) -> Result<(), Failed> {
    let letter = if number % 10 == 0 { b'h' } else { b'm' };
    pair.write(&name(letter, name_number)?)?;
    if number % 10 == 9 {
        pair.pass()?;
        pair.pass()?;
    }
    Ok(())
}

// The second turn sends the body.
fn bodies(pair: &mut Pair, name_number: u32) -> Result<(), Failed> {
    pair.write(&name(b'n', name_number)?)?;
    pair.pass()?;
    pair.pass()
}

// A number below this one, in an order that does not rise.
fn shuffled(number: u32, names: u32) -> u32
    requires { 1 ≤ names }
{
    (number as u64 * 7919 % names as u64) as u32
}
