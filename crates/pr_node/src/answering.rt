// What a node answers.
ghost use Rattle.pr_node.specs.Answering.{IsAnswerOf, IsFindingOf, reply_of};
ghost use Rattle.pr_node.specs.Ties.{IsTied};
ghost use Rattle.pr_story.specs.Ranges.{IsFinding, IsReply};
ghost use Rattle.pr_story.specs.declared.entry.Entry.{Entry};
ghost use Rattle.std.specs.Prelude.{◌≡◌, ℕ, List, IfOk};

use crate::ranges::bytes_in_range;
use crate::{Answer, Stores};
use pr_names::Name;
use pr_stamps::{NoMemory, Seq};
use pr_story::{Found, Reply};
use std::alloc::Global;

// The newest write to the name, by what the stores tell.
pub fn answer<'a>(stores: &'a Stores, name: &Name) -> Answer<'a>
    ensures value { IsAnswerOf stores.now name.now (reply_of result) }
    ensures range { IsReply (reply_of result) }
{
    let index = stores.gaps.set_of(name);
    if let Some(untold) = stores.gaps.first_untold(index) {
        let _ = untold.clock();
        return Answer::Imprecise { untold };
    }
    let Some(newest) = stores.marks.newest(name) else {
        return Answer::Never;
    };
    let stamp = newest.stamp;
    let _ = stamp.clock();
    if newest.gone {
        return Answer::Gone { stamp };
    }
    match stores.bodies.get(name, &stamp) {
        Some(bytes) => {
            bytes_in_range(bytes);
            Answer::Value { stamp, bytes }
        }
        None => Answer::Body { stamp },
    }
}

// The answer with a copy of its bytes.
fn reply(alloc: Global, answer: &Answer<'_>) -> Result<Reply, NoMemory>
    ensures { IfOk result (λ reply. reply ≡ reply_of answer.now) }
{
    match answer {
        Answer::Never => Ok(Reply::Never),
        Answer::Value { stamp, bytes } => Ok(Reply::Value {
            stamp: *stamp,
            bytes: Seq::copied(alloc, bytes)?,
        }),
        Answer::Imprecise { untold } => Ok(Reply::Imprecise { untold: *untold }),
        Answer::Body { stamp } => Ok(Reply::Body { stamp: *stamp }),
        Answer::Gone { stamp } => Ok(Reply::Gone { stamp: *stamp }),
    }
}

// The answer as two replies: one to give, and one to keep.
pub fn replies(alloc: Global, answer: &Answer<'_>) -> Result<(Reply, Reply), NoMemory>
    ensures { IfOk result (λ replies. (replies.0 ≡ reply_of answer.now) × (replies.1 ≡ reply_of answer.now)) }
{
    let given = reply(alloc, answer)?;
    let kept = reply(alloc, answer)?;
    Ok((given, kept))
}

// The conflicts of the name, or the least untold point of its set.
pub fn found(stores: &Stores, name: &Name) -> Result<Found, NoMemory>
    ensures value { IfOk result (IsFindingOf stores.now name.now) }
    ensures range { IfOk result (λ found. (n : ℕ) (j : List Entry) → IsTied n j stores.now → IsFinding found) }
{
    let index = stores.gaps.set_of(name);
    if let Some(untold) = stores.gaps.first_untold(index) {
        let _ = untold.clock();
        return Ok(Found::Imprecise { untold });
    }
    let pairs = stores.marks.pairs(name)?;
    Ok(Found::Pairs(pairs))
}

pub fn copy(alloc: Global, found: &Found) -> Result<Found, NoMemory>
    ensures { IfOk result (λ copy. copy ≡ found.now) }
{
    match found {
        Found::Pairs(pairs) => Ok(Found::Pairs(Seq::copied(alloc, pairs.as_slice())?)),
        Found::Imprecise { untold } => Ok(Found::Imprecise { untold: *untold }),
    }
}
