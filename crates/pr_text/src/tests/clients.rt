// Lines of clients and of nodes.
use super::{bytes, decls, name, packed, says, vector, write};
use pr_script::{Bytes, Decls};
use pr_stamps::{Seq, Stamp};
use pr_story::{Event, Found, Reply};
use std::alloc::Global;

fn wrote(alloc: Global, gone: bool, body: &[u8], after: u64) -> Option<Event> {
    let write = write(gone)?;
    let body = bytes(alloc, body)?;
    Some(Event::Wrote {
        client: 1,
        write,
        body,
        after: packed(alloc, after, 0)?,
    })
}

fn are_writes_told(alloc: Global) -> Option<bool> {
    let decls = decls(alloc)?;
    let text = b"write d a/x \"h \\22\\5c\\0a\\ffi\" 3@B over 1@A after A:2\n";
    let first = says(
        alloc,
        &decls,
        wrote(alloc, false, b"h \"\\\n\xffi", 2),
        text,
    );
    let text = b"delete d a/x 3@B over 1@A after -\n";
    Some(first && says(alloc, &decls, wrote(alloc, true, b"", 0), text))
}

#[test]
fn writes_and_deletes(rt: HostRuntime) {
    assert!(rt; are_writes_told(rt.alloc()).unwrap_or(false));
}

fn answered(alloc: Global, reply: Reply) -> Option<Event> {
    let name = name(b"b")?;
    Some(Event::Answered {
        client: 0,
        name,
        reply,
        at: packed(alloc, 1, 0)?,
    })
}

fn is_answer(alloc: Global, decls: &Decls, reply: Reply, text: &[u8]) -> bool {
    says(alloc, decls, answered(alloc, reply), text)
}

fn are_answers_told(alloc: Global) -> Option<bool> {
    let (stamp, decls) = (Stamp::new(5, 0)?, decls(alloc)?);
    let untold = Reply::Imprecise { untold: stamp };
    let (body, gone) = (Reply::Body { stamp }, Reply::Gone { stamp });
    Some(
        is_answer(alloc, &decls, Reply::Never, b"read c b never at A:1\n")
            && is_answer(alloc, &decls, untold, b"read c b imprecise 5@A at A:1\n")
            && is_answer(alloc, &decls, body, b"read c b body 5@A at A:1\n")
            && is_answer(alloc, &decls, gone, b"read c b gone 5@A at A:1\n"),
    )
}

#[test]
fn answers(rt: HostRuntime) {
    assert!(rt; are_answers_told(rt.alloc()).unwrap_or(false));
}

fn value(alloc: Global, bytes: Option<Bytes>) -> Option<Event> {
    let stamp = Stamp::new(5, 0)?;
    let bytes = bytes?;
    answered(alloc, Reply::Value { stamp, bytes })
}

fn are_values_told(alloc: Global) -> Option<bool> {
    let decls = decls(alloc)?;
    let event = value(alloc, bytes(alloc, b""));
    Some(says(alloc, &decls, event, b"read c b value 5@A \"\" at A:1\n"))
}

#[test]
fn values(rt: HostRuntime) {
    assert!(rt; are_values_told(rt.alloc()).unwrap_or(false));
}

fn dropped() -> Option<Event> {
    let name = name(b"a/x")?;
    Some(Event::Dropped { name })
}

fn behind(alloc: Global) -> Option<Event> {
    Some(Event::Behind {
        client: 1,
        needs: packed(alloc, 0, 9)?,
        has: packed(alloc, 0, 0)?,
    })
}

fn cut(alloc: Global) -> Option<Event> {
    let at = packed(alloc, 2, 0)?;
    Some(Event::Cut { at })
}

fn are_clients_told(alloc: Global) -> Option<bool> {
    let decls = decls(alloc)?;
    let client = 1;
    Some(
        says(alloc, &decls, behind(alloc), b"behind d needs B:9 has -\n")
            && says(alloc, &decls, Some(Event::Moved { client }), b"move d B\n")
            && says(alloc, &decls, cut(alloc), b"cut B at A:2\n")
            && says(alloc, &decls, dropped(), b"drop B a/x\n"),
    )
}

#[test]
fn clients_and_nodes(rt: HostRuntime) {
    assert!(rt; are_clients_told(rt.alloc()).unwrap_or(false));
}

fn conflicts(found: Found) -> Option<Event> {
    let name = name(b"a/x")?;
    Some(Event::Conflicts { name, found })
}

fn pairs(alloc: Global) -> Option<Seq<(Stamp, Stamp)>> {
    let (one, two, three) = (Stamp::new(1, 0)?, Stamp::new(1, 1)?, Stamp::new(2, 0)?);
    let mut pairs = Seq::new(alloc);
    pairs.push((one, two)).ok()?;
    pairs.push((two, three)).ok()?;
    Some(pairs)
}

fn no_conflicts(alloc: Global) -> Option<Event> {
    conflicts(Found::Pairs(Seq::new(alloc)))
}

fn untold() -> Option<Event> {
    let untold = Stamp::new(1, 0)?;
    conflicts(Found::Imprecise { untold })
}

fn two_conflicts(alloc: Global) -> Option<Event> {
    conflicts(Found::Pairs(pairs(alloc)?))
}

fn are_conflicts_told(alloc: Global) -> Option<bool> {
    let decls = decls(alloc)?;
    Some(
        says(alloc, &decls, no_conflicts(alloc), b"conflicts B a/x -\n")
            && says(
                alloc,
                &decls,
                two_conflicts(alloc),
                b"conflicts B a/x 1@A|1@B,1@B|2@A\n",
            )
            && says(alloc, &decls, untold(), b"conflicts B a/x imprecise 1@A\n"),
    )
}

#[test]
fn conflicts_of_a_name(rt: HostRuntime) {
    assert!(rt; are_conflicts_told(rt.alloc()).unwrap_or(false));
}

fn state(alloc: Global) -> Option<Event> {
    let mut precise = Seq::new(alloc);
    precise.push(vector(2, 0)).ok()?;
    precise.push(vector(0, 0)).ok()?;
    Some(Event::State {
        at: packed(alloc, 2, 1)?,
        cut: packed(alloc, 0, 0)?,
        floor: packed(alloc, 1, 0)?,
        precise,
    })
}

fn are_states_told(alloc: Global) -> Option<bool> {
    let decls = decls(alloc)?;
    let text = b"state B at A:2,B:1 cut - floor A:1 precise A:2 -\n";
    Some(says(alloc, &decls, state(alloc), text))
}

#[test]
fn states(rt: HostRuntime) {
    assert!(rt; are_states_told(rt.alloc()).unwrap_or(false));
}
