// Whether what the plain program gives is what a line shows.

use crate::plain::Next;
use crate::tests::build::{At, Clocks, set, vector};
use crate::tests::line::{Says, Shape};
use crate::{Found, Reply};
use pr_inval::{Kind, Row, WriteRec};
use pr_names::Name;
use pr_sets::NameSet;
use pr_stamps::Stamp;
use pr_vectors::PackedVector;
use std::alloc::Global;

pub fn is_at(stamp: &Stamp, at: At) -> bool {
    stamp.clock() == at.0 && stamp.node() == at.1
}

/// Whether the two are one stamp, or both none.
pub fn is_over(prev: &Option<Stamp>, at: &Option<At>) -> bool {
    match (prev, at) {
        (Some(stamp), Some(at)) => is_at(stamp, *at),
        (None, None) => true,
        _ => false,
    }
}

pub fn is_said(reply: &Reply, what: &Says) -> bool {
    match (reply, what) {
        (Reply::Never, Says::Never) => true,
        (Reply::Value { stamp, bytes }, Says::Value(at, text)) => {
            is_at(stamp, *at) && bytes.as_slice() == *text
        }
        (Reply::Imprecise { untold }, Says::Imprecise(at)) => is_at(untold, *at),
        (Reply::Body { stamp }, Says::Body(at)) => is_at(stamp, *at),
        (Reply::Gone { stamp }, Says::Gone(at)) => is_at(stamp, *at),
        _ => false,
    }
}

pub fn is_found(found: &Found, pairs: &[(At, At)]) -> bool {
    match found {
        Found::Pairs(found) => are_pairs(found.as_slice(), pairs),
        Found::Imprecise { .. } => false,
    }
}

fn are_pairs(found: &[(Stamp, Stamp)], pairs: &[(At, At)]) -> bool {
    let mut both = found.iter().zip(pairs.iter());
    found.len() == pairs.len() && both.all(|(p, q)| is_at(&p.0, q.0) && is_at(&p.1, q.1))
}

/// Whether the set is that of the text.
fn is_set(alloc: Global, names: &NameSet, text: &[u8]) -> Option<bool> {
    let other = set(alloc, text)?;
    Some(names.within(&other) && other.within(names))
}

fn is_write(write: &WriteRec, o: &[u8], at: At, prev: &Option<At>, gone: bool) -> bool {
    is_name(&write.name, o)
        && is_at(&write.stamp, at)
        && is_over(&write.prev, prev)
        && write.gone == gone
}

fn is_name(name: &Name, o: &[u8]) -> bool {
    name.bytes() == o
}

fn are_rows(rows: &[Row], table: &[(&[u8], At, bool)]) -> bool {
    let mut both = rows.iter().zip(table.iter());
    rows.len() == table.len() && both.all(|(row, line)| is_row(row, line.0, line.1, line.2))
}

fn is_row(row: &Row, o: &[u8], at: At, gone: bool) -> bool {
    is_name(&row.name, o) && is_at(&row.newest, at) && row.gone == gone && row.marks.is_empty()
}

fn are_vectors(a: &PackedVector, b: &PackedVector, first: &Clocks, second: &Clocks) -> bool {
    a.get() == vector(first) && b.get() == vector(second)
}

fn is_precise(kind: &Kind, from: &Clocks, to: &Clocks) -> bool {
    match kind {
        Kind::Precise {
            from: start,
            to: end,
            ..
        } => are_vectors(start, end, from, to),
        _ => false,
    }
}

fn has_write(kind: &Kind, o: &[u8], at: At, prev: &Option<At>, gone: bool) -> bool {
    match kind {
        Kind::Precise { write, .. } => is_write(write, o, at, prev, gone),
        _ => false,
    }
}

fn is_imprecise(
    alloc: Global,
    kind: &Kind,
    text: &[u8],
    start: &Clocks,
    end: &Clocks,
) -> Option<bool> {
    match kind {
        Kind::Imprecise { from, to, target } => {
            Some(are_vectors(from, to, start, end) && is_set(alloc, target, text)?)
        }
        _ => Some(false),
    }
}

fn is_checkpoint(
    alloc: Global,
    kind: &Kind,
    text: &[u8],
    end: &Clocks,
    least: &Clocks,
) -> Option<bool> {
    match kind {
        Kind::Checkpoint {
            to,
            target,
            floor,
            ..
        } => Some(are_vectors(to, floor, end, least) && is_set(alloc, target, text)?),
        _ => Some(false),
    }
}

fn has_rows(kind: &Kind, table: &[(&[u8], At, bool)]) -> bool {
    match kind {
        Kind::Checkpoint { rows, .. } => are_rows(rows.as_slice(), table),
        _ => false,
    }
}

fn is_body(kind: &Kind, o: &[u8], at: At, text: &[u8]) -> bool {
    match kind {
        Kind::Body { name, stamp, bytes } => {
            is_name(name, o) && is_at(stamp, at) && bytes.as_slice() == text
        }
        _ => false,
    }
}

/// Whether the message is of this shape.
pub fn is_kind(alloc: Global, kind: &Kind, shape: &Shape) -> Option<bool> {
    match shape {
        Shape::Precise(o, at, prev, from, to) => {
            Some(is_precise(kind, from, to) && has_write(kind, o, *at, prev, false))
        }
        Shape::Gone(o, at, prev, from, to) => {
            Some(is_precise(kind, from, to) && has_write(kind, o, *at, prev, true))
        }
        Shape::Imprecise(text, from, to) => is_imprecise(alloc, kind, text, from, to),
        Shape::Checkpoint(text, to, floor, table) => {
            Some(has_rows(kind, table) && is_checkpoint(alloc, kind, text, to, floor)?)
        }
        Shape::Body(o, at, text) => Some(is_body(kind, o, *at, text)),
    }
}

/// Whether the turn sends a message of this shape.
pub fn sends(alloc: Global, next: &Next, shape: &Shape) -> Option<bool> {
    match next {
        Next::Send(kind) => is_kind(alloc, kind, shape),
        _ => Some(false),
    }
}

pub fn is_idle(next: &Next) -> bool {
    match next {
        Next::Idle => true,
        _ => false,
    }
}

pub fn is_stale(next: &Next, cut: &Clocks) -> bool {
    match next {
        Next::Stale(at) => *at == vector(cut),
        _ => false,
    }
}
