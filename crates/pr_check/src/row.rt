// Rows of a checkpoint, and pairs of stamps in conflict.
ghost use Rattle.pr_check.specs.Fields.{Gives, items_of, parts};
ghost use Rattle.pr_check.specs.Parts.{is_gone, mark_read, pair_read, pairs_read, row_read, row_with, rows_read, sign_of};
ghost use Rattle.pr_script.specs.Labels.{AreLabels};
ghost use Rattle.pr_stamps.specs.Point.{IsStamp};
ghost use Rattle.pr_story.specs.Counts.{HasMark, HasPair, HasRow};
ghost use Rattle.pr_story.specs.Ranges.{IsRow, IsStampOrNone};
ghost use Rattle.pr_text.specs.Numbers.{nodes_of};
ghost use Rattle.std.specs.Prelude.{◌≡◌, All, IfOk, IfSome};

use crate::part::{cut, is_hyphen};
use crate::refusal::Refusal;
use crate::stamp::{prev, stamp};
use pr_inval::Row;
use pr_script::{Decl, name};
use pr_stamps::{Mark, Seq, Stamp};
use std::alloc::Global;

/// STAMP|STAMP joined by commas, or a hyphen.
pub fn pairs(alloc: Global, decls: &[Decl], bytes: &[u8]) -> Result<Seq<(Stamp, Stamp)>, Refusal>
    requires { AreLabels decls.now }
    ensures reads { Gives result (pairs_read decls.now bytes.now) }
    ensures range { IfOk result (All (λ p. IsStamp p.0 × IsStamp p.1)) }
    ensures declared { IfOk result (All (HasPair (nodes_of decls.now))) }
{
    if is_hyphen(bytes) {
        return Ok(Seq::new(alloc));
    }
    some_pairs(alloc, decls, bytes)
}

fn some_pairs(alloc: Global, decls: &[Decl], bytes: &[u8]) -> Result<Seq<(Stamp, Stamp)>, Refusal>
    requires { AreLabels decls.now }
    ensures reads { Gives result (items_of (pair_read decls.now) (parts 44 bytes.now)) }
    ensures range { IfOk result (All (λ p. IsStamp p.0 × IsStamp p.1)) }
    ensures declared { IfOk result (All (HasPair (nodes_of decls.now))) }
{
    let mut pairs = Seq::new(alloc);
    let mut rest = bytes;
    while !rest.is_empty() {
        let (part, more) = cut(b',', rest);
        let Some(pair) = pair(decls, part) else {
            return Err(Refusal::Unread);
        };
        pairs.push(pair)?;
        rest = more;
    }
    Ok(pairs)
}

#[tactic(auto, unfolding(crate::specs::Parts::pair_read))]
fn pair(decls: &[Decl], bytes: &[u8]) -> Option<(Stamp, Stamp)>
    requires { AreLabels decls.now }
    ensures reads { result ≡ pair_read decls.now bytes.now }
    ensures range { IfSome result (λ p. IsStamp p.0 × IsStamp p.1) }
    ensures declared { IfSome result (HasPair (nodes_of decls.now)) }
{
    let (one, other) = cut(b'|', bytes);
    let one = stamp(decls, one)?;
    let other = stamp(decls, other)?;
    Some((one, other))
}

/// Rows joined by commas, or a hyphen.
pub fn rows(alloc: Global, decls: &[Decl], bytes: &[u8]) -> Result<Seq<Row>, Refusal>
    requires { AreLabels decls.now }
    ensures reads { Gives result (rows_read decls.now bytes.now) }
    ensures range { IfOk result (All IsRow) }
    ensures declared { IfOk result (All (HasRow (nodes_of decls.now))) }
{
    if is_hyphen(bytes) {
        return Ok(Seq::new(alloc));
    }
    some_rows(alloc, decls, bytes)
}

fn some_rows(alloc: Global, decls: &[Decl], bytes: &[u8]) -> Result<Seq<Row>, Refusal>
    requires { AreLabels decls.now }
    ensures reads { Gives result (items_of (row_read decls.now) (parts 44 bytes.now)) }
    ensures range { IfOk result (All IsRow) }
    ensures declared { IfOk result (All (HasRow (nodes_of decls.now))) }
{
    let mut rows = Seq::new(alloc);
    let mut rest = bytes;
    while !rest.is_empty() {
        let (part, more) = cut(b',', rest);
        rows.push(row(alloc, decls, part)?)?;
        rest = more;
    }
    Ok(rows)
}

// NAME=STAMP(MARKS), or NAME!STAMP(MARKS) for a delete.
#[tactic(auto, unfolding(crate::specs::Parts::row_read))]
fn row(alloc: Global, decls: &[Decl], bytes: &[u8]) -> Result<Row, Refusal>
    requires { AreLabels decls.now }
    ensures reads { Gives result (row_read decls.now bytes.now) }
    ensures range { IfOk result IsRow }
    ensures declared { IfOk result (HasRow (nodes_of decls.now)) }
{
    let (written, behind) = cut(b'(', bytes);
    let marks = marks(alloc, decls, cut(b')', behind).0)?;
    let gone = is_gone(written);
    row_with(decls, written, gone, marks)
}

fn is_gone(written: &[u8]) -> bool
    ensures { result ≡ is_gone written.now }
{
    written.iter().any(|b| *b == b'!')
}

fn sign_of(gone: bool) -> u8
    ensures { result ≡ sign_of gone }
{
    if gone { b'!' } else { b'=' }
}

#[tactic(auto, unfolding(crate::specs::Parts::row_with))]
fn row_with(decls: &[Decl], written: &[u8], gone: bool, marks: Seq<Mark>) -> Result<Row, Refusal>
    requires labels { AreLabels decls.now }
    requires range { All (λ m. IsStamp m.stamp × IsStampOrNone m.prev) marks }
    requires declared { All (HasMark (nodes_of decls.now)) marks }
    ensures reads { Gives result (row_with decls.now written.now gone marks) }
    ensures range { IfOk result IsRow }
    ensures declared { IfOk result (HasRow (nodes_of decls.now)) }
{
    let (name_text, stamp_text) = cut(sign_of(gone), written);
    let Some(name) = name(name_text) else {
        return Err(Refusal::Unread);
    };
    let _ = name.bytes();
    let Some(newest) = stamp(decls, stamp_text) else {
        return Err(Refusal::Unread);
    };
    Ok(Row {
        name,
        newest,
        gone,
        marks,
    })
}

// Marks joined by semicolons.
fn marks(alloc: Global, decls: &[Decl], bytes: &[u8]) -> Result<Seq<Mark>, Refusal>
    requires { AreLabels decls.now }
    ensures reads { Gives result (items_of (mark_read decls.now) (parts 59 bytes.now)) }
    ensures range { IfOk result (All (λ m. IsStamp m.stamp × IsStampOrNone m.prev)) }
    ensures declared { IfOk result (All (HasMark (nodes_of decls.now))) }
{
    let mut marks = Seq::new(alloc);
    let mut rest = bytes;
    while !rest.is_empty() {
        let (part, more) = cut(b';', rest);
        let Some(Mark { stamp, prev }) = mark(decls, part) else {
            return Err(Refusal::Unread);
        };
        marks.push(Mark { stamp, prev })?;
        rest = more;
    }
    Ok(marks)
}

// STAMP<PREV.
#[tactic(auto, unfolding(crate::specs::Parts::mark_read))]
fn mark(decls: &[Decl], bytes: &[u8]) -> Option<Mark>
    requires { AreLabels decls.now }
    ensures reads { result ≡ mark_read decls.now bytes.now }
    ensures range { IfSome result (λ m. IsStamp m.stamp × IsStampOrNone m.prev) }
    ensures declared { IfSome result (HasMark (nodes_of decls.now)) }
{
    let (stamp_text, prev_text) = cut(b'<', bytes);
    let stamp = stamp(decls, stamp_text)?;
    let prev = prev(decls, prev_text)?;
    Some(Mark { stamp, prev })
}
