// Lists, causes, replies and what was found.
ghost use Rattle.pr_keep.specs.Reading.{cause_at, cause_of, found_at, found_by, found_pairs_at, in_any_order, pair_at, pairs_at, reply_at, reply_by, stamped_at, value_at, vectors_at};
ghost use Rattle.pr_story.specs.declared.found.Found.TheVariants as founds;
ghost use Rattle.pr_story.specs.declared.reply.Reply.TheVariants as replies;
ghost use Rattle.pr_wire.specs.Reading.{Gives, items_at, vector_at};
ghost use Rattle.std.specs.Prelude.{◌≡◌, []};

use crate::reading::fields::{counted, pair};
use pr_stamps::{Seq, Stamp};
use pr_story::{Cause, Found, Reply};
use pr_vectors::Vector;
use pr_wire::{Cursor, Fault};
use std::alloc::Global;

/// Vectors behind their count.
#[tactic(auto, unfolding(pr_wire::specs::Reading::list_at))]
pub fn vectors(cursor: &mut Cursor, alloc: Global) -> Result<Seq<Vector>, Fault>
    ensures { Gives (λ x. (x, cursor.new.rest.now)) result (vectors_at cursor.old.rest.now) }
{
    let count = cursor.eight()?;
    some_vectors(cursor, alloc, count)
}

fn some_vectors(cursor: &mut Cursor, alloc: Global, count: u64) -> Result<Seq<Vector>, Fault>
    ensures { Gives (λ x. (x, cursor.new.rest.now)) result (items_at vector_at in_any_order count [] cursor.old.rest.now) }
{
    let mut vectors = Seq::new(alloc);
    for _ in 0..count {
        let vector = cursor.vector()?;
        vectors.push(vector)?;
    }
    Ok(vectors)
}

// Pairs behind their count.
#[tactic(auto, unfolding(pr_wire::specs::Reading::list_at))]
fn pairs(cursor: &mut Cursor, alloc: Global) -> Result<Seq<(Stamp, Stamp)>, Fault>
    ensures { Gives (λ x. (x, cursor.new.rest.now)) result (pairs_at cursor.old.rest.now) }
{
    let count = cursor.eight()?;
    some_pairs(cursor, alloc, count)
}

fn some_pairs(cursor: &mut Cursor, alloc: Global, count: u64) -> Result<Seq<(Stamp, Stamp)>, Fault>
    ensures { Gives (λ x. (x, cursor.new.rest.now)) result (items_at pair_at in_any_order count [] cursor.old.rest.now) }
{
    let mut pairs = Seq::new(alloc);
    for _ in 0..count {
        let next = pair(cursor)?;
        pairs.push(next)?;
    }
    Ok(pairs)
}

fn cause_of(byte: u8) -> Option<Cause>
    ensures { result ≡ cause_of byte }
{
    match byte {
        1 => Some(Cause::Failed),
        2 => Some(Cause::Ended),
        3 => Some(Cause::Gap),
        _ => None,
    }
}

/// Why a flow ended.
#[tactic(auto, unfolding(crate::specs::Reading::cause_at))]
pub fn cause(cursor: &mut Cursor) -> Result<Cause, Fault>
    ensures { Gives (λ x. (x, cursor.new.rest.now)) result (cause_at cursor.old.rest.now) }
{
    let byte = cursor.byte()?;
    match cause_of(byte) {
        Some(cause) => Ok(cause),
        None => Err(Fault::Bad),
    }
}

#[tactic(auto, unfolding(crate::specs::Reading::value_at))]
fn value(cursor: &mut Cursor, alloc: Global) -> Result<Reply, Fault>
    ensures { Gives (λ x. (x, cursor.new.rest.now)) result (value_at cursor.old.rest.now) }
{
    let stamp = cursor.stamp()?;
    let bytes = counted(cursor, alloc)?;
    Ok(Reply::Value { stamp, bytes })
}

#[tactic(auto, unfolding(crate::specs::Reading::stamped_at))]
fn untold(cursor: &mut Cursor) -> Result<Reply, Fault>
    ensures { Gives (λ x. (x, cursor.new.rest.now)) result (stamped_at replies.Imprecise cursor.old.rest.now) }
{
    let untold = cursor.stamp()?;
    Ok(Reply::Imprecise { untold })
}

#[tactic(auto, unfolding(crate::specs::Reading::stamped_at))]
fn lacking(cursor: &mut Cursor) -> Result<Reply, Fault>
    ensures { Gives (λ x. (x, cursor.new.rest.now)) result (stamped_at replies.Body cursor.old.rest.now) }
{
    let stamp = cursor.stamp()?;
    Ok(Reply::Body { stamp })
}

#[tactic(auto, unfolding(crate::specs::Reading::stamped_at))]
fn gone(cursor: &mut Cursor) -> Result<Reply, Fault>
    ensures { Gives (λ x. (x, cursor.new.rest.now)) result (stamped_at replies.Gone cursor.old.rest.now) }
{
    let stamp = cursor.stamp()?;
    Ok(Reply::Gone { stamp })
}

#[tactic(auto, unfolding(crate::specs::Reading::reply_by))]
fn reply_by(cursor: &mut Cursor, alloc: Global, kind: u8) -> Result<Reply, Fault>
    ensures { Gives (λ x. (x, cursor.new.rest.now)) result (reply_by kind cursor.old.rest.now) }
{
    match kind {
        1 => Ok(Reply::Never),
        2 => value(cursor, alloc),
        3 => untold(cursor),
        4 => lacking(cursor),
        5 => gone(cursor),
        _ => Err(Fault::Bad),
    }
}

/// The answer to a read.
#[tactic(auto, unfolding(crate::specs::Reading::reply_at))]
pub fn reply(cursor: &mut Cursor, alloc: Global) -> Result<Reply, Fault>
    ensures { Gives (λ x. (x, cursor.new.rest.now)) result (reply_at cursor.old.rest.now) }
{
    let kind = cursor.byte()?;
    reply_by(cursor, alloc, kind)
}

#[tactic(auto, unfolding(crate::specs::Reading::found_pairs_at))]
fn found_pairs(cursor: &mut Cursor, alloc: Global) -> Result<Found, Fault>
    ensures { Gives (λ x. (x, cursor.new.rest.now)) result (found_pairs_at cursor.old.rest.now) }
{
    let pairs = pairs(cursor, alloc)?;
    Ok(Found::Pairs(pairs))
}

#[tactic(auto, unfolding(crate::specs::Reading::stamped_at))]
fn found_untold(cursor: &mut Cursor) -> Result<Found, Fault>
    ensures { Gives (λ x. (x, cursor.new.rest.now)) result (stamped_at founds.Imprecise cursor.old.rest.now) }
{
    let untold = cursor.stamp()?;
    Ok(Found::Imprecise { untold })
}

#[tactic(auto, unfolding(crate::specs::Reading::found_by))]
fn found_by(cursor: &mut Cursor, alloc: Global, kind: u8) -> Result<Found, Fault>
    ensures { Gives (λ x. (x, cursor.new.rest.now)) result (found_by kind cursor.old.rest.now) }
{
    match kind {
        1 => found_pairs(cursor, alloc),
        2 => found_untold(cursor),
        _ => Err(Fault::Bad),
    }
}

/// What was found of conflicts.
#[tactic(auto, unfolding(crate::specs::Reading::found_at))]
pub fn found(cursor: &mut Cursor, alloc: Global) -> Result<Found, Fault>
    ensures { Gives (λ x. (x, cursor.new.rest.now)) result (found_at cursor.old.rest.now) }
{
    let kind = cursor.byte()?;
    found_by(cursor, alloc, kind)
}
