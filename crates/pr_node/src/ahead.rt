// The invalidation that a stream's source sends where its vector is past the stream's position.
ghost use Rattle.pr_inval.specs.Standing.{means};
ghost use Rattle.pr_inval.specs.Targets.{IsTargetFor};
ghost use Rattle.pr_inval.specs.declared.kind.Kind.TheVariants.{Precise};
ghost use Rattle.pr_log.specs.Log.{IsOmittedIn};
ghost use Rattle.pr_log.specs.Waiting.{IsNextOf};
ghost use Rattle.pr_names.specs.Name.{IsName};
ghost use Rattle.pr_node.specs.Sending.{IsImpreciseOf, IsOmittedSet, IsSentOf};
ghost use Rattle.pr_node.specs.Ties.{IsLogOf};
ghost use Rattle.pr_sets.specs.Spans.{IsSetOf, Meet, has};
ghost use Rattle.pr_story.specs.Ranges.{IsMsg};
ghost use Rattle.pr_story.specs.Sending.{IsAhead};
ghost use Rattle.pr_story.specs.Told.{IsDarkBetween};
ghost use Rattle.pr_story.specs.Turns.{IsOmitted};
ghost use Rattle.pr_story.specs.declared.entry.Entry.{Entry};
ghost use Rattle.pr_story.specs.declared.event.Event.TheVariants.{Sent};
ghost use Rattle.pr_vectors.specs.Vector.{Le, join_of};
ghost use Rattle.std.specs.Prelude.{◌≡◌, ◌⊎◌, ◌↔◌, ℕ, List, None, IfOk, IsOk, IsTrue, false};

use crate::Scan;
use crate::ranges::write_in_range;
use pr_inval::{Kind, Msg, Session, TARGET_INTERVALS, WriteRec, target_for};
use pr_log::Log;
use pr_names::Name;
use pr_sets::NameSet;
use pr_stamps::{NoMemory, Stamp};
use pr_vectors::{PackedVector, Vector};
use std::alloc::Global;

// The names of which something is withheld between two vectors. Where nothing is dark, and the omitted names have more
// intervals than a target that names them may have, just some of them with more are here.
#[derive(Drop)]
pub struct Withheld {
    pub dark: NameSet,
    pub omitted: NameSet,
}

// The invalidation for these names from a position that the vector is past, as the session's next message. It is made
// where it is answered, and in calls of their own, since each move copies it.
#[inline(never)]
pub fn ahead(
    alloc: Global,
    log: &Log,
    names: &NameSet,
    position: &Vector,
    session: &Session,
    scan: &mut Scan,
    time: u64,
) -> Result<Msg, NoMemory>
    requires cut { Le log.now.cut position.now }
    ensures scan { scan.new ≡ scan.old }
    ensures next { IfOk result (λ msg. (n : ℕ) (j : List Entry) → IsLogOf n j log.now → IsSentOf (IsAhead n j names.now position.now) (means session.now) time (Sent msg)) }
    ensures range { IfOk result IsMsg }
{
    let vector = log.vector();
    let Some(write) = scan.next_write(log, position, names) else {
        return rest(alloc, log, names, position, session, time);
    };
    let mut before = *position;
    before.join_below(vector, &write.stamp);
    let found = found_between(alloc, log, names, position, &before)?;
    if is_nothing(&found) {
        before.raise_within(&write.stamp, vector);
        return precise(alloc, position, &before, write, session, time);
    }
    imprecise(alloc, &found, names, position, &before, session, time)
}

// The invalidation up to the log's vector, where no write waits. It has a vector of its own, which a call that finds a
// write need not clear.
#[inline(never)]
fn rest(
    alloc: Global,
    log: &Log,
    names: &NameSet,
    position: &Vector,
    session: &Session,
    time: u64,
) -> Result<Msg, NoMemory>
    requires cut { Le log.now.cut position.now }
    requires none { IsNextOf log.now.known position.now names.now None }
    ensures next { IfOk result (λ msg. (n : ℕ) (j : List Entry) → IsLogOf n j log.now → IsSentOf (IsAhead n j names.now position.now) (means session.now) time (Sent msg)) }
    ensures range { IfOk result IsMsg }
{
    let vector = log.vector();
    let mut to = *position;
    to.join_in(vector);
    let found = found_between(alloc, log, names, position, &to)?;
    imprecise(alloc, &found, names, position, &to, session, time)
}

// What is withheld between two vectors. Where no point lies between them, as mostly, that is nothing.
fn found_between(
    alloc: Global,
    log: &Log,
    names: &NameSet,
    from: &Vector,
    to: &Vector,
) -> Result<Withheld, NoMemory>
    requires cut { Le log.now.cut from.now }
    requires to { Le to.now (join_of from.now log.now.vector) }
    ensures dark { IfOk result (λ w. (n : ℕ) (j : List Entry) → IsLogOf n j log.now → IsSetOf w.dark (IsDarkBetween n j from.now to.now)) }
    ensures omitted { IfOk result (λ w. (n : ℕ) (j : List Entry) → IsLogOf n j log.now → IsOmittedSet w.dark w.omitted (IsOmitted j names.now from.now to.now)) }
    ensures apart { IfOk result (λ w. ¬ Meet (has w.omitted) (has names.now)) }
{
    if to.le(from) {
        let _ = to.at(0);
        return Ok(Withheld {
            dark: NameSet::empty(alloc),
            omitted: NameSet::empty(alloc),
        });
    }
    let dark = log.dark_between(from, to)?;
    let omitted = omitted_beside(&dark, log, names, from, to)?;
    Ok(Withheld { dark, omitted })
}

// The omitted names, or some of them: where nothing is dark, so many that a target cannot name them are not asked for.
fn omitted_beside(
    dark: &NameSet,
    log: &Log,
    names: &NameSet,
    from: &Vector,
    to: &Vector,
) -> Result<NameSet, NoMemory>
    requires cut { Le log.now.cut from.now }
    requires to { Le to.now (join_of from.now log.now.vector) }
    ensures omitted { IfOk result (λ set. IsOmittedSet dark.now set (IsOmittedIn log.now from.now to.now names.now)) }
{
    if dark.is_empty() {
        return log.omitted_within(from, to, names, TARGET_INTERVALS);
    }
    log.omitted_between(from, to, names)
}

// Whether nothing is withheld.
fn is_nothing(found: &Withheld) -> bool
    ensures none { IsTrue result → (o : List ℕ) → IsName o → ¬ (IsTrue (has found.now.dark o) ⊎ IsTrue (has found.now.omitted o)) }
    ensures some { result ≡ false → (o : List ℕ) × IsName o × (IsTrue (has found.now.dark o) ⊎ IsTrue (has found.now.omitted o)) }
{
    if found.dark.is_empty() {
        found.omitted.is_empty()
    } else {
        false
    }
}

#[inline(never)]
fn imprecise(
    alloc: Global,
    found: &Withheld,
    names: &NameSet,
    from: &Vector,
    to: &Vector,
    session: &Session,
    time: u64,
) -> Result<Msg, NoMemory>
    requires { ¬ Meet (has found.now.omitted) (has names.now) }
    ensures value { IfOk result (λ msg. IsSentOf (IsImpreciseOf found.now names.now from.now to.now) (means session.now) time (Sent msg)) }
    ensures range { IfOk result IsMsg }
{
    let target = target_for(alloc, &found.omitted, &found.dark, names)?;
    let _ = target.parts();
    let packed_from = PackedVector::of(alloc, from)?;
    let packed_to = PackedVector::of(alloc, to)?;
    let _ = from.at(0);
    let _ = to.at(0);
    let _ = session.time();
    Ok(Msg {
        time,
        stream: session.stream(),
        number: session.number() + 1,
        kind: Kind::Imprecise {
            from: packed_from,
            to: packed_to,
            target,
        },
    })
}

#[inline(never)]
fn precise(
    alloc: Global,
    from: &Vector,
    to: &Vector,
    write: &WriteRec,
    session: &Session,
    time: u64,
) -> Result<Msg, NoMemory>
    ensures value { IfOk result (λ msg. IsSentOf (λ kind. kind ≡ Precise from.now to.now write.now) (means session.now) time (Sent msg)) }
    ensures range { IfOk result IsMsg }
{
    let packed_from = PackedVector::of(alloc, from)?;
    let packed_to = PackedVector::of(alloc, to)?;
    let _ = from.at(0);
    let _ = to.at(0);
    let _ = session.time();
    write_in_range(write);
    Ok(Msg {
        time,
        stream: session.stream(),
        number: session.number() + 1,
        kind: Kind::Precise {
            from: packed_from,
            to: packed_to,
            write: *write,
        },
    })
}
