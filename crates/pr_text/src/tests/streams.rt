// Lines of streams and of their messages.
use super::{bytes, decls, name, packed, says, set, write};
use pr_inval::{Kind, Msg, Row};
use pr_script::Decls;
use pr_stamps::{Mark, Seq, Stamp};
use pr_story::{Cause, Event};
use std::alloc::Global;

fn message(stream: u32, number: u64, kind: Kind) -> Msg {
    Msg {
        time: 9,
        stream,
        number,
        kind,
    }
}

pub fn sent(kind: Option<Kind>) -> Option<Event> {
    let msg = message(1, 17, kind?);
    Some(Event::Sent { msg })
}

pub fn precise(alloc: Global, gone: bool) -> Option<Kind> {
    let write = write(gone)?;
    Some(Kind::Precise {
        from: packed(alloc, 0, 0)?,
        to: packed(alloc, 1, 2)?,
        write,
    })
}

fn imprecise(alloc: Global) -> Option<Kind> {
    let target = set(alloc, b"b,a/*")?;
    Some(Kind::Imprecise {
        from: packed(alloc, 1, 0)?,
        to: packed(alloc, 1, 2)?,
        target,
    })
}

fn body(alloc: Global) -> Option<Kind> {
    let name = name(b"b")?;
    let stamp = Stamp::new(2, 0)?;
    let bytes = bytes(alloc, b"x y")?;
    Some(Kind::Body { name, stamp, bytes })
}

fn are_messages_told(alloc: Global) -> Option<bool> {
    let decls = decls(alloc)?;
    let precisely = b"send t 17 precise a/x 3@B over 1@A from - to A:1,B:2\n";
    let gone = b"send t 17 gone a/x 3@B over 1@A from - to A:1,B:2\n";
    let coarsely = b"send t 17 imprecise a/*,b from A:1 to A:1,B:2\n";
    Some(
        says(alloc, &decls, sent(precise(alloc, false)), precisely)
            && says(alloc, &decls, sent(precise(alloc, true)), gone)
            && says(alloc, &decls, sent(imprecise(alloc)), coarsely)
            && says(
                alloc,
                &decls,
                sent(body(alloc)),
                b"send t 17 body b 2@A \"x y\"\n",
            ),
    )
}

#[test]
fn messages(rt: HostRuntime) {
    assert!(rt; are_messages_told(rt.alloc()).unwrap_or(false));
}

fn mark(clock: u64, node: u32, prev: Option<Stamp>) -> Option<Mark> {
    let stamp = Stamp::new(clock, node)?;
    Some(Mark { stamp, prev })
}

fn marks(alloc: Global) -> Option<Seq<Mark>> {
    let mut marks = Seq::new(alloc);
    marks.push(mark(1, 0, None)?).ok()?;
    marks.push(mark(3, 1, Stamp::new(1, 0))?).ok()?;
    Some(marks)
}

fn row(text: &[u8], newest: Option<Stamp>, gone: bool, marks: Option<Seq<Mark>>) -> Option<Row> {
    let name = name(text)?;
    let newest = newest?;
    let marks = marks?;
    Some(Row {
        name,
        newest,
        gone,
        marks,
    })
}

fn rows(alloc: Global) -> Option<Seq<Row>> {
    let mut rows = Seq::new(alloc);
    let written = row(b"a/x", Stamp::new(3, 1), false, marks(alloc))?;
    let deleted = row(b"b", Stamp::new(2, 0), true, Some(Seq::new(alloc)))?;
    rows.push(written).ok()?;
    rows.push(deleted).ok()?;
    Some(rows)
}

fn checkpoint(alloc: Global, target: &[u8], rows: Option<Seq<Row>>) -> Option<Kind> {
    Some(Kind::Checkpoint {
        to: packed(alloc, 3, 1)?,
        target: set(alloc, target)?,
        floor: packed(alloc, 1, 0)?,
        rows: rows?,
    })
}

// Whether a checkpoint of this target and these rows has this line.
fn is_checkpoint(
    alloc: Global,
    decls: &Decls,
    target: &[u8],
    rows: Option<Seq<Row>>,
    text: &[u8],
) -> bool {
    says(alloc, decls, sent(checkpoint(alloc, target, rows)), text)
}

fn are_checkpoints_told(alloc: Global) -> Option<bool> {
    let decls = decls(alloc)?;
    let text = b"send t 17 checkpoint ~ to A:3,B:1 floor A:1 rows a/x=3@B(1@A<-;3@B<1@A),b!2@A()\n";
    let first = is_checkpoint(alloc, &decls, b"~", rows(alloc), text);
    let text = b"send t 17 checkpoint * to A:3,B:1 floor A:1 rows -\n";
    Some(first && is_checkpoint(alloc, &decls, b"*", Some(Seq::new(alloc)), text))
}

#[test]
fn checkpoints(rt: HostRuntime) {
    assert!(rt; are_checkpoints_told(rt.alloc()).unwrap_or(false));
}

fn attached(alloc: Global) -> Option<Event> {
    let at = packed(alloc, 0, 4)?;
    Some(Event::Attached { stream: 1, at })
}

fn stale(alloc: Global) -> Option<Event> {
    let cut = packed(alloc, 7, 0)?;
    Some(Event::Stale { stream: 1, cut })
}

fn missing(stream: u32) -> Option<Event> {
    Some(Event::Missing { stream, number: 0 })
}

fn are_streams_told(alloc: Global) -> Option<bool> {
    let decls = decls(alloc)?;
    let stream = 1;
    Some(
        says(alloc, &decls, attached(alloc), b"attach t at B:4\n")
            && says(alloc, &decls, Some(Event::Idle { stream }), b"idle t\n")
            && says(alloc, &decls, stale(alloc), b"stale t cut A:7\n")
            && says(alloc, &decls, missing(stream), b"missing t 0\n"),
    )
}

#[test]
fn streams(rt: HostRuntime) {
    assert!(rt; are_streams_told(rt.alloc()).unwrap_or(false));
}

pub fn accepted(alloc: Global) -> Option<Event> {
    let at = packed(alloc, 1, 2)?;
    let msg = message(0, 2, precise(alloc, false)?);
    Some(Event::Accepted { msg, at })
}

fn gapped(alloc: Global) -> Option<Event> {
    let has = packed(alloc, 0, 1)?;
    let msg = message(0, 2, imprecise(alloc)?);
    Some(Event::Gapped { msg, has })
}

fn are_arrivals_told(alloc: Global) -> Option<bool> {
    let decls = decls(alloc)?;
    let taken = says(alloc, &decls, accepted(alloc), b"accept s 2 at A:1,B:2\n");
    Some(taken && says(alloc, &decls, gapped(alloc), b"gap s 2 needs A:1 has B:1\n"))
}

#[test]
fn arrivals(rt: HostRuntime) {
    assert!(rt; are_arrivals_told(rt.alloc()).unwrap_or(false));
}

fn is_end(alloc: Global, decls: &Decls, cause: Cause, text: &[u8]) -> bool {
    says(alloc, decls, Some(Event::Down { stream: 0, cause }), text)
}

fn are_ends_told(alloc: Global) -> Option<bool> {
    let decls = decls(alloc)?;
    Some(
        is_end(alloc, &decls, Cause::Failed, b"down s failed\n")
            && is_end(alloc, &decls, Cause::Ended, b"down s ended\n")
            && is_end(alloc, &decls, Cause::Gap, b"down s gap\n"),
    )
}

#[test]
fn ends_of_flows(rt: HostRuntime) {
    assert!(rt; are_ends_told(rt.alloc()).unwrap_or(false));
}
