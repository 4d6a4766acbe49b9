// The turn of a stream at its source.
ghost use Rattle.pr_inval.specs.Standing.{IsSameSession, means};
ghost use Rattle.pr_inval.specs.declared.kind.Kind.{Kind};
ghost use Rattle.pr_node.specs.Grammar.{IsStepSpelled};
ghost use Rattle.pr_node.specs.Scanning.{IsScanOf};
ghost use Rattle.pr_node.specs.Sending.{IsBodyTurn, IsNextTurn, IsOfKind, IsStepInRange, IsTurnOf};
ghost use Rattle.pr_node.specs.Ties.{IsTied};
ghost use Rattle.pr_story.specs.Ranges.{IsKind, IsMsg};
ghost use Rattle.pr_story.specs.Turns.{IdleTurn, IsTurn, event_of};
ghost use Rattle.pr_story.specs.declared.entry.Entry.{Entry};
ghost use Rattle.pr_story.specs.declared.event.Event.TheVariants.{Idle, Sent};
ghost use Rattle.std.specs.Prelude.{◌≡◌, ◌≤◌, ◌<◌, ◌+◌, ℕ, List, IfOk, IsTrue, OnOk, reverse};
ghost use Rattle.pr_story.specs.Sessions.{HasGoneOn};

use crate::ahead::ahead;
use crate::waiting_bodies::next_body;
use crate::{Scan, Stores, Turned};
use pr_inval::{Kind, Msg, Session, Step};
use pr_names::{Bound, Name};
use pr_sets::NameSet;
use pr_stamps::NoMemory;
use pr_story::Journal;
use pr_vectors::PackedVector;
use std::alloc::Global;

// Where the stream leaves names out, the log lists those of its writes, by which it finds them.
pub fn list_names(stores: &mut Stores, session: &Session) -> Result<(), NoMemory>
    ensures { stores.new ≡ stores.old }
{
    if leaves_out(session.sub()) {
        stores.log.list_names()?;
    }
    Ok(())
}

// Whether these are not all names.
fn leaves_out(names: &NameSet) -> bool {
    match names.parts() {
        [part] => part.lo() != Name::least() || part.hi() != Bound::End,
        _ => true,
    }
}

// The turn of a stream with this session, at its source, where its node has done this. The session has room to note it.
// A step goes from call to call, and not its event, which is larger.
pub fn next_turn(
    alloc: Global,
    stores: &Stores,
    journal: &Journal,
    session: &mut Session,
    scan: &mut Scan,
    time: u64,
) -> Result<Step, NoMemory>
    requires later { (means session.old).standing.time < time }
    requires most { time ≤ 4611686018427387903 }
    requires scan { IsScanOf scan.old (means session.old).standing (reverse journal.now.items) }
    ensures next { IfOk result (λ step. (n : ℕ) → IsTied n (reverse journal.now.items) stores.now → IsNextTurn n (reverse journal.now.items) (means session.old) time (event_of (means session.old).stream step)) }
    ensures spelled { IfOk result (λ step. (n : ℕ) → IsTied n (reverse journal.now.items) stores.now → IsStepSpelled step) }
    ensures range { IfOk result IsStepInRange }
    ensures same { IsSameSession (means session.old) (means session.new) }
    ensures room { OnOk result (0 < (means session.new).room) }
    ensures scan { (n : ℕ) → IsTied n (reverse journal.now.items) stores.now → IsScanOf scan.new (means session.new).standing (reverse journal.now.items) }
{
    let _ = session.number();
    session.room()?;
    next_step(alloc, stores, journal, session, scan, time)
}

// The same, without a look at the room.
fn next_step(
    alloc: Global,
    stores: &Stores,
    journal: &Journal,
    session: &Session,
    scan: &mut Scan,
    time: u64,
) -> Result<Step, NoMemory>
    requires scan { IsScanOf scan.old (means session.now).standing (reverse journal.now.items) }
    ensures next { IfOk result (λ step. (n : ℕ) → IsTied n (reverse journal.now.items) stores.now → IsNextTurn n (reverse journal.now.items) (means session.now) time (event_of (means session.now).stream step)) }
    ensures scan { (n : ℕ) → IsTied n (reverse journal.now.items) stores.now → IsScanOf scan.new (means session.now).standing (reverse journal.now.items) }
    ensures range { IfOk result IsStepInRange }
{
    let position = session.pos();
    let cut = stores.log.cut_at();
    if !cut.le(position) {
        let cut = PackedVector::of(alloc, cut)?;
        return Ok(Step::Stale { cut });
    }
    if !stores.log.vector().le(position) {
        let msg = ahead(
            alloc,
            &stores.log,
            session.sub(),
            position,
            session,
            scan,
            time,
        )?;
        return Ok(Step::Sent(msg));
    }
    if session.bodies() {
        return send_body(alloc, stores, journal, session, scan, time);
    }
    Ok(Step::Idle)
}

// Sends the next body, if there is one.
fn send_body(
    alloc: Global,
    stores: &Stores,
    journal: &Journal,
    session: &Session,
    scan: &mut Scan,
    time: u64,
) -> Result<Step, NoMemory>
    requires scan { IsScanOf scan.old (means session.now).standing (reverse journal.now.items) }
    ensures next { IfOk result (λ step. (n : ℕ) → IsTied n (reverse journal.now.items) stores.now → IsBodyTurn (reverse journal.now.items) (means session.now) time (event_of (means session.now).stream step)) }
    ensures scan { (n : ℕ) → IsTied n (reverse journal.now.items) stores.now → IsScanOf scan.new (means session.now).standing (reverse journal.now.items) }
    ensures range { IfOk result IsStepInRange }
{
    match next_body(alloc, stores, journal, session, scan)? {
        Some(kind) => Ok(Step::Sent(message(session, kind, time))),
        None => Ok(Step::Idle),
    }
}

// The session's next message.
pub fn message(session: &Session, kind: Kind, time: u64) -> Msg
    requires { IsKind kind }
    ensures stream { result.stream ≡ (means session.now).stream }
    ensures number { result.number ≡ (means session.now).standing.number + 1 }
    ensures time { result.time ≡ time }
    ensures kind { result.kind ≡ kind }
    ensures range { IsMsg result }
{
    let _ = session.time();
    Msg {
        time,
        stream: session.stream(),
        number: session.number() + 1,
        kind,
    }
}

// A copy of a step, with its message.
pub fn copy_of(alloc: Global, step: &Step) -> Result<Step, NoMemory>
    ensures { IfOk result (λ copy. copy ≡ step.now) }
{
    match step {
        Step::Sent(msg) => Ok(Step::Sent(msg.copy(alloc)?)),
        Step::Idle => Ok(Step::Idle),
        Step::Stale { cut } => Ok(Step::Stale {
            cut: cut.copy(alloc)?,
        }),
    }
}

// Whether a stream that sends no bodies has told all.
pub fn is_idle(stores: &Stores, session: &Session) -> bool
    ensures { IsTrue result → (n : ℕ) (j : List Entry) → IsTied n j stores.now → IsTurn n j (means session.now).standing IdleTurn }
{
    if session.bodies() {
        return false;
    }
    let position = session.pos();
    if !stores.log.cut_at().le(position) {
        return false;
    }
    stores.log.vector().le(position)
}

// Which kind of turn the step is.
pub fn kind_of(step: &Step) -> Turned
    ensures { (stream : ℕ) → IsOfKind result (event_of stream step.now) }
{
    match step {
        Step::Sent(_) => Turned::Sent,
        Step::Idle => Turned::Idle,
        Step::Stale { .. } => Turned::Stale,
    }
}

// The session notes its turn at this time. It takes no memory.
pub fn note(session: &mut Session, step: &Step, time: u64)
    requires attached { IsTrue (means session.old).attached }
    requires later { (means session.old).standing.time < time }
    requires most { time ≤ 4611686018427387903 }
    requires room { 0 < (means session.old).room }
    requires turn { IsTurnOf (means session.old).stream (event_of (means session.old).stream step.now) }
    ensures { (caller stream : ℕ) → stream ≡ (means session.old).stream → HasGoneOn (means session.old) (means session.new) (means session.old).attached (record { time = time; caller = caller; event = event_of stream step.now }) }
{
    match step {
        Step::Sent(msg) => note_sent(session, &msg.kind, time),
        Step::Idle | Step::Stale { .. } => session.heard(time),
    }
}

// The session notes a turn that sent nothing.
pub fn note_idle(session: &mut Session, time: u64)
    requires later { (means session.old).standing.time < time }
    requires most { time ≤ 4611686018427387903 }
    ensures { (caller stream : ℕ) → HasGoneOn (means session.old) (means session.new) (means session.old).attached (record { time = time; caller = caller; event = Idle stream }) }
{
    session.heard(time);
}

// The session notes a message that was sent.
pub fn note_sent(session: &mut Session, kind: &Kind, time: u64)
    requires attached { IsTrue (means session.old).attached }
    requires later { (means session.old).standing.time < time }
    requires most { time ≤ 4611686018427387903 }
    requires room { 0 < (means session.old).room }
    ensures { (caller : ℕ) (msg : Msg) → msg.kind ≡ kind.now → msg.stream ≡ (means session.old).stream → HasGoneOn (means session.old) (means session.new) (means session.old).attached (record { time = time; caller = caller; event = Sent msg }) }
{
    let _ = session.pos();
    match kind {
        Kind::Body { name, stamp, .. } => session.sent_body(name, stamp, time),
        Kind::Precise { to, .. } | Kind::Imprecise { to, .. } | Kind::Checkpoint { to, .. } => {
            session.sent(to, time);
        }
    }
}
