// Names of objects, labels and texts.
ghost use Rattle.pr_gen.specs.Topology as topology;
ghost use Rattle.pr_names.specs.Name.{IsName};
ghost use Rattle.std.specs.Prelude.{◌≡◌, ◌++◌, ◌<◌, IfOk, decimal};

use itoa::Buffer;
use pr_names::Name;
use pr_stamps::{Bytes, NoMemory, Seq};
use std::alloc::Global;

/// A letter and a digit.
pub fn label(alloc: Global, letter: u8, number: u8) -> Result<Bytes, NoMemory>
    requires { number < 10 }
    ensures { IfOk result (λ l. l ≡ topology.label letter number) }
{
    Seq::copied(alloc, &[letter, b'0' + number])
}

/// A letter and a slash, with which the names of a group begin.
pub fn front(letter: u8) -> Name
    requires { letter < 8 }
    ensures { result ≡ topology.front letter }
{
    named(&[b'a' + letter, b'/'])
}

/// The name of a letter and a number in decimal.
pub fn name(letter: u8, number: u8) -> Name
    requires letter { letter < 8 }
    requires number { number < 50 }
    ensures { result ≡ topology.front letter ++ decimal number }
{
    let last = b'0' + number % 10;
    if number < 10 {
        return named(&[b'a' + letter, b'/', last]);
    }
    named(&[b'a' + letter, b'/', b'0' + number / 10, last])
}

fn named(bytes: &[u8]) -> Name
    requires { IsName bytes.now }
    ensures { result ≡ bytes.now }
{
    match Name::read(bytes) {
        Ok(name) => name,
        Err(_) => unreachable!(),
    }
}

/// A number in decimal.
pub fn text(alloc: Global, number: u32) -> Result<Bytes, NoMemory>
    ensures { IfOk result (λ t. t ≡ decimal number) }
{
    let mut buffer = Buffer::new();
    Seq::copied(alloc, buffer.format(number).as_bytes())
}
