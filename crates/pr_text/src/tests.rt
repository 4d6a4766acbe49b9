mod clients;
mod ends;
mod kept;
mod lines;
mod streams;

use crate::line;
use pr_inval::WriteRec;
use pr_names::Name;
use pr_script::{Bytes, Decls, read};
use pr_sets::NameSet;
use pr_stamps::{Seq, Stamp};
use pr_story::Event;
use pr_vectors::{PackedVector, Vector};
use std::alloc::Global;

const HEADS: &[u8] =
    b"node A a/*,b c\nclient c A\nnode B\nclient d B\nstream s A B *\nstream t A B a/x bodies\n";

// What a test needs is made in short functions, which answer `None` where there is no memory or a value is refused.

fn decls(alloc: Global) -> Option<Decls> {
    match read(alloc, HEADS) {
        Ok(script) => Some(script.decls),
        Err(_) => None,
    }
}

// Whether the event at B has this line, in place of what was there.
fn says(alloc: Global, decls: &Decls, event: Option<Event>, text: &[u8]) -> bool {
    match event {
        Some(event) => makes(alloc, decls, &event, text).unwrap_or(false),
        None => false,
    }
}

fn makes(alloc: Global, decls: &Decls, event: &Event, text: &[u8]) -> Option<bool> {
    let mut out = bytes(alloc, b"before\n")?;
    line(decls, 1, event, &mut out).ok()?;
    Some(out.as_slice() == text)
}

fn bytes(alloc: Global, text: &[u8]) -> Option<Bytes> {
    Seq::copied(alloc, text).ok()
}

fn set(alloc: Global, text: &[u8]) -> Option<NameSet> {
    NameSet::read(alloc, text, 16).ok()
}

fn name(text: &[u8]) -> Option<Name> {
    Name::read(text).ok()
}

// The vector of these clocks of A and B.
fn vector(a: u64, b: u64) -> Vector {
    let mut vector = Vector::zero();
    if let Some(stamp) = Stamp::new(a, 0) {
        vector.raise(&stamp);
    }
    if let Some(stamp) = Stamp::new(b, 1) {
        vector.raise(&stamp);
    }
    vector
}

fn packed(alloc: Global, a: u64, b: u64) -> Option<PackedVector> {
    PackedVector::of(alloc, &vector(a, b)).ok()
}

fn write(gone: bool) -> Option<WriteRec> {
    let name = name(b"a/x")?;
    let stamp = Stamp::new(3, 1)?;
    Some(WriteRec {
        name,
        stamp,
        prev: Stamp::new(1, 0),
        gone,
    })
}
