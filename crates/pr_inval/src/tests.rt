ghost use Rattle.pr_inval.specs.Merging.{AreAdjacent, Rises};

use crate::{
    Imprecise, Kind, Msg, Row, Session, WriteRec, merge, merged_cover_what_either_covers,
    merging_is_associative, merging_is_commutative, target_for,
};
use pr_names::Name;
use pr_sets::NameSet;
use pr_stamps::{Mark, Seq, Stamp};
use pr_vectors::{PackedVector, Vector};
use std::alloc::Global;

// What a test needs is made in short functions, which answer `None` where there is no memory or a value is refused.

fn name(bytes: &[u8]) -> Option<Name> {
    Name::read(bytes).ok()
}

fn set(alloc: Global, text: &[u8]) -> Option<NameSet> {
    NameSet::read(alloc, text, 100).ok()
}

fn is_printed(alloc: Global, set: &NameSet, want: &[u8]) -> Option<bool> {
    let mut out = Seq::new(alloc);
    set.print(&mut out).ok()?;
    Some(out.as_slice() == want)
}

// The clock of node 0, and zero for all others.
fn vector(clock: u64) -> Option<Vector> {
    let stamp = Stamp::new(clock, 0)?;
    let mut vector = Vector::zero();
    vector.raise(&stamp);
    Some(vector)
}

// The same at rest.
fn packed(alloc: Global, vector: &Vector) -> Option<PackedVector> {
    PackedVector::of(alloc, vector).ok()
}

// ---- merging

// Whether the two are merged to what names b and c, from zero to clock 2.
fn is_merged(alloc: Global, a: &Imprecise, b: &Imprecise) -> Option<bool>
    requires adjacent { AreAdjacent a.now b.now }
    requires a_rises { Rises a.now }
    requires b_rises { Rises b.now }
{
    let end = vector(2)?;
    let merged = merge(alloc, a, b).ok()?;
    Some(
        merged.from == Vector::zero()
            && merged.to == end
            && is_printed(alloc, &merged.target, b"b,c")?,
    )
}

fn are_merged(alloc: Global) -> Option<bool> {
    let (zero, middle, end) = (Vector::zero(), vector(1)?, vector(2)?);
    if !zero.le(&middle) || !middle.le(&end) {
        return Some(false);
    }
    let first = Imprecise {
        from: zero,
        to: middle,
        target: set(alloc, b"b")?,
    };
    let second = Imprecise {
        from: middle,
        to: end,
        target: set(alloc, b"c")?,
    };
    Some(is_merged(alloc, &first, &second)? && is_merged(alloc, &second, &first)?)
}

#[test]
fn invalidations_merge_in_either_order(rt: HostRuntime) {
    assert!(rt; are_merged(rt.alloc()).unwrap_or(false));
    merging_is_commutative();
    merging_is_associative();
    merged_cover_what_either_covers();
}

// ---- targets

const SIXTEEN: &[u8] =
    b"b/00,b/01,b/02,b/03,b/04,b/05,b/06,b/07,b/08,b/09,b/10,b/11,b/12,b/13,b/14,b/15";

const SEVENTEEN: &[u8] =
    b"b/00,b/01,b/02,b/03,b/04,b/05,b/06,b/07,b/08,b/09,b/10,b/11,b/12,b/13,b/14,b/15,b/16";

const TOUCHING: &[u8] =
    b"b/00,b/01,b/02,b/03,b/04,b/05,b/06,b/07,b/08,b/09,b/10,b/11,b/12,b/13,b/14,b/15,b/15-";

const JOINED: &[u8] =
    b"b/00,b/01,b/02,b/03,b/04,b/05,b/06,b/07,b/08,b/09,b/10,b/11,b/12,b/13,b/14,b/15:b/15--";

// Whether this is the target of a stream of `a/*`.
fn is_target(alloc: Global, omitted: &[u8], dark: &[u8], want: &[u8]) -> Option<bool> {
    let sub = set(alloc, b"a/*")?;
    let (omitted, dark) = (set(alloc, omitted)?, set(alloc, dark)?);
    if omitted.meets(&sub) {
        return Some(false);
    }
    let target = target_for(alloc, &omitted, &dark, &sub).ok()?;
    is_printed(alloc, &target, want)
}

fn are_targets(alloc: Global) -> Option<bool> {
    Some(
        is_target(alloc, SIXTEEN, b"~", SIXTEEN)?
            && is_target(alloc, SEVENTEEN, b"~", b"-:a/,a0:~")?
            && is_target(alloc, SEVENTEEN, b"a/x", b"-:a/,a/x,a0:~")?
            && is_target(alloc, SEVENTEEN, b"b/17", b"-:a/,a0:~")?
            && is_target(alloc, TOUCHING, b"~", JOINED)?
            && is_target(alloc, b"b", b"a/x,b", b"a/x,b")?,
    )
}

#[test]
fn targets_are_fine_or_coarse(rt: HostRuntime) {
    assert!(rt; are_targets(rt.alloc()).unwrap_or(false));
}

// ---- copies

fn message(kind: Kind) -> Msg {
    Msg {
        time: 2,
        stream: 0,
        number: 1,
        kind,
    }
}

fn copied(alloc: Global, kind: Kind) -> Option<Kind> {
    let Msg { kind, .. } = message(kind).copy(alloc).ok()?;
    Some(kind)
}

fn write() -> Option<WriteRec> {
    Some(WriteRec {
        name: name(b"a/x")?,
        stamp: Stamp::new(1, 0)?,
        prev: None,
        gone: false,
    })
}

// Whether the kind is precise, from zero on.
fn is_precise(kind: &Kind, end: &Vector, told: &WriteRec) -> bool {
    match kind {
        Kind::Precise { from, to, write } => {
            from.get() == Vector::zero() && to.get() == *end && *write == *told
        }
        _ => false,
    }
}

fn precise(alloc: Global, write: WriteRec) -> Option<Kind> {
    Some(Kind::Precise {
        from: packed(alloc, &Vector::zero())?,
        to: packed(alloc, &vector(1)?)?,
        write,
    })
}

fn is_message_copied(alloc: Global) -> Option<bool> {
    let (end, write) = (vector(1)?, write()?);
    let copy = message(precise(alloc, write)?).copy(alloc).ok()?;
    let head = copy.time == 2 && copy.stream == 0 && copy.number == 1;
    Some(head && is_precise(&copy.kind, &end, &write))
}

#[test]
fn messages_are_copied(rt: HostRuntime) {
    assert!(rt; is_message_copied(rt.alloc()).unwrap_or(false));
}

fn has_target(alloc: Global, kind: &Kind, want: &[u8]) -> Option<bool> {
    match kind {
        Kind::Imprecise { target, .. } => is_printed(alloc, target, want),
        _ => Some(false),
    }
}

fn is_target_copied(alloc: Global) -> Option<bool> {
    let kind = Kind::Imprecise {
        from: packed(alloc, &Vector::zero())?,
        to: packed(alloc, &vector(1)?)?,
        target: set(alloc, b"a,b")?,
    };
    has_target(alloc, &copied(alloc, kind)?, b"a,b")
}

#[test]
fn targets_are_copied(rt: HostRuntime) {
    assert!(rt; is_target_copied(rt.alloc()).unwrap_or(false));
}

fn is_body(kind: &Kind, want: &[u8]) -> bool {
    match kind {
        Kind::Body { bytes, .. } => bytes.as_slice() == want,
        _ => false,
    }
}

fn is_body_copied(alloc: Global) -> Option<bool> {
    let kind = Kind::Body {
        name: name(b"a/x")?,
        stamp: Stamp::new(1, 0)?,
        bytes: Seq::copied(alloc, b"hi").ok()?,
    };
    Some(is_body(&copied(alloc, kind)?, b"hi"))
}

#[test]
fn bodies_are_copied(rt: HostRuntime) {
    assert!(rt; is_body_copied(rt.alloc()).unwrap_or(false));
}

fn mark() -> Option<Mark> {
    Some(Mark {
        stamp: Stamp::new(2, 1)?,
        prev: Some(Stamp::new(1, 0)?),
    })
}

fn rows(alloc: Global) -> Option<Seq<Row>> {
    let mark = mark()?;
    let row = Row {
        name: name(b"a/x")?,
        newest: mark.stamp,
        gone: true,
        marks: Seq::copied(alloc, &[mark]).ok()?,
    };
    let mut rows = Seq::new(alloc);
    rows.push(row).ok()?;
    Some(rows)
}

fn is_row(row: &Row, mark: Mark) -> bool {
    row.gone && row.newest == mark.stamp && row.marks.as_slice() == [mark].as_slice()
}

// Whether the kind has this row alone.
fn has_row(kind: &Kind, mark: Mark) -> bool {
    match kind {
        Kind::Checkpoint { rows, .. } => rows.len() == 1 && is_row(&rows.as_slice()[0], mark),
        _ => false,
    }
}

fn is_row_copied(alloc: Global) -> Option<bool> {
    let kind = Kind::Checkpoint {
        to: packed(alloc, &vector(2)?)?,
        target: set(alloc, b"b*")?,
        floor: packed(alloc, &Vector::zero())?,
        rows: rows(alloc)?,
    };
    Some(has_row(&copied(alloc, kind)?, mark()?))
}

#[test]
fn rows_are_copied(rt: HostRuntime) {
    assert!(rt; is_row_copied(rt.alloc()).unwrap_or(false));
}

// ---- sessions

fn is_new(session: &Session) -> bool {
    !session.is_attached()
        && session.bodies()
        && session.stream() == 3
        && *session.pos() == Vector::zero()
        && session.sub().count() == 1
}

// Attaches the session, has it send a body, and detaches it.
fn remembers(session: &mut Session) -> Option<bool> {
    let (name, stamp) = (name(b"a/x")?, Stamp::new(1, 0)?);
    session.begin(&Vector::zero());
    session.room().ok()?;
    if session.time() > 0 {
        return Some(false);
    }
    session.sent_body(&name, &stamp, 1);
    let has = session.has_sent(&name, &stamp) && session.number() == 1 && session.time() == 1;
    session.detach();
    Some(has && !session.is_attached() && session.number() == 1)
}

fn are_remembered(alloc: Global) -> Option<bool> {
    let sub = set(alloc, b"a/*")?;
    if sub.count() == 0 {
        return Some(false);
    }
    let mut session = Session::new(alloc, 3, sub, true);
    Some(is_new(&session) && remembers(&mut session)?)
}

#[test]
fn sessions_remember_bodies(rt: HostRuntime) {
    assert!(rt; are_remembered(rt.alloc()).unwrap_or(false));
}

// Whether the session is at this vector, with one message, at time 5.
fn stands(session: &Session, pos: &Vector) -> bool {
    *session.pos() == *pos && session.number() == 1 && session.time() == 5
}

// Attaches the session twice; a message is sent in between.
fn goes_on(session: &mut Session) -> Option<bool> {
    let (start, end) = (vector(1)?, vector(2)?);
    session.begin(&start);
    session.heard(4);
    if session.time() > 4 {
        return Some(false);
    }
    session.sent(&end, 5);
    let first = stands(session, &end);
    session.heard(3);
    session.begin(&Vector::zero());
    Some(first && stands(session, &Vector::zero()))
}

fn go_on(alloc: Global) -> Option<bool> {
    let sub = set(alloc, b"*")?;
    if sub.count() == 0 {
        return Some(false);
    }
    goes_on(&mut Session::new(alloc, 0, sub, false))
}

#[test]
fn sessions_go_on_through_attaches(rt: HostRuntime) {
    assert!(rt; go_on(rt.alloc()).unwrap_or(false));
}
