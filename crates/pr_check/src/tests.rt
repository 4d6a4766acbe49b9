mod texts;

ghost use Rattle.pr_script.specs.Labels.{AreLabels};
ghost use Rattle.std.specs.Prelude.{IfOk};

use crate::{Judge, Said, Verdict, begins_head, no_decls, read_head, read_line};
use pr_script::{Decls, read};
use pr_text::plain::Asked;
use std::alloc::Global;
use std::test::Fail;

const HEADS: &[u8] =
    b"node A a/*,b c\nclient c A\nnode B\nclient d B\nstream s A B *\nstream t A B a/x bodies\n";

fn decls(alloc: Global) -> Result<Decls, Fail>
    ensures { IfOk result (λ decls. AreLabels decls.list) }
{
    match read(alloc, HEADS) {
        Ok(script) => Ok(script.decls),
        Err(_) => Err(Fail::from("a script")),
    }
}

// What a line says: a word, whose number it names, and one number more.
type Shown = (&'static str, u32, u64);

fn shown(said: &Said) -> Shown {
    match said {
        Said::Asked(asked) => shown_asked(asked),
        Said::End { stream, .. } => ("end", *stream, 0),
        Said::Behind { client } => ("behind", *client, 0),
    }
}

fn shown_asked(asked: &Asked) -> Shown {
    match asked {
        Asked::Write(client, _, _, true) => ("delete", *client, 0),
        Asked::Write(client, _, body, false) => ("write", *client, body.len() as u64),
        Asked::Read(client, _) => ("read", *client, 0),
        Asked::Move(client, node) => ("move", *client, u64::from(*node)),
        Asked::Attach(stream) => ("attach", *stream, 0),
        Asked::Send(stream) => ("send", *stream, 0),
        Asked::Checkpoint(stream) => ("checkpoint", *stream, 0),
        Asked::Deliver(stream, number) => ("deliver", *stream, *number),
        Asked::Cut(node) => ("cut", *node, 0),
        Asked::Drop(node, _) => ("drop", *node, 0),
        Asked::Conflicts(node, _) => ("conflicts", *node, 0),
        Asked::State(node) => ("state", *node, 0),
    }
}

fn says(alloc: Global, decls: &Decls, line: &[u8], word: &str, first: u32, second: u64) -> bool
    requires { AreLabels decls.now.list }
{
    match read_line(alloc, decls, line) {
        Ok(Some(said)) => shown(&said) == (word, first, second),
        _ => false,
    }
}

fn is_none(alloc: Global, decls: &Decls, line: &[u8]) -> bool
    requires { AreLabels decls.now.list }
{
    matches!(read_line(alloc, decls, line), Ok(None))
}

#[test]
fn lines_of_clients_and_nodes(rt: HostRuntime) -> Result<(), Fail> {
    let decls = decls(rt.alloc())?;
    let table: [(&[u8], &str, u32, u64); 16] = [
        (
            b"write d a/x \"h \\22\\5c\\0a\\ffi\" 3@B over 1@A after A:2",
            "write",
            1,
            7,
        ),
        (b"delete d a/x 3@B over - after -", "delete", 1, 0),
        (b"read c b never at A:1", "read", 0, 0),
        (b"read c b value 5@A \"x y\" at A:1,B:2", "read", 0, 0),
        (b"read c b imprecise 5@A at A:1", "read", 0, 0),
        (b"read c b body 5@A at -", "read", 0, 0),
        (b"read c b gone 5@A at -", "read", 0, 0),
        (b"behind d needs B:9 has -", "behind", 1, 0),
        (b"move d B", "move", 1, 1),
        (b"move d A", "move", 1, 0),
        (b"cut B at A:2", "cut", 1, 0),
        (b"drop B a/x", "drop", 1, 0),
        (b"conflicts B a/x -", "conflicts", 1, 0),
        (b"conflicts B a/x 1@A|1@B,2@B|1@A", "conflicts", 1, 0),
        (b"conflicts B a/x imprecise 1@A", "conflicts", 1, 0),
        (
            b"state B at A:2,B:1 cut - floor A:1 precise A:2 - -",
            "state",
            1,
            0,
        ),
    ];
    for (line, word, first, second) in &table {
        assert!(rt; says(rt.alloc(), &decls, line, word, *first, *second));
    }
    Ok(())
}

#[test]
fn lines_of_streams(rt: HostRuntime) -> Result<(), Fail> {
    let decls = decls(rt.alloc())?;
    let table: [(&[u8], &str, u32, u64); 13] = [
        (b"attach t at B:4", "attach", 1, 0),
        (
            b"send t 17 precise a/x 1@B over 3@A from A:9 to -",
            "send",
            1,
            0,
        ),
        (
            b"send t 17 gone a/x 3@B over 1@A from - to A:1,B:2",
            "send",
            1,
            0,
        ),
        (
            b"send t 0 imprecise a/*,b from A:1 to A:1,B:2",
            "send",
            1,
            0,
        ),
        (
            b"send t 17 checkpoint ~ to A:3,B:1 floor A:1 rows b!2@A(),a/x=3@B(1@A<-;3@B<1@A)",
            "checkpoint",
            1,
            0,
        ),
        (
            b"send t 17 checkpoint * to A:3 floor - rows -",
            "checkpoint",
            1,
            0,
        ),
        (b"send t 17 body b 2@A \"\"", "send", 1, 0),
        (b"idle t", "send", 1, 0),
        (b"stale t cut A:7", "send", 1, 0),
        (
            b"accept s 18446744073709551615 at A:1,B:2",
            "deliver",
            0,
            18446744073709551615,
        ),
        (b"gap s 2 needs A:1 has B:1", "deliver", 0, 2),
        (b"missing s 0", "deliver", 0, 0),
        (b"down t gap", "end", 1, 0),
    ];
    for (line, word, first, second) in &table {
        assert!(rt; says(rt.alloc(), &decls, line, word, *first, *second));
    }
    Ok(())
}

#[test]
fn other_lines(rt: HostRuntime) -> Result<(), Fail> {
    let decls = decls(rt.alloc())?;
    let table: [&[u8]; 24] = [
        b"",
        b"ok 3",
        b"node C",
        b"idle",
        b"idle u",
        b"idle c",
        b"idle t ",
        b"idle  t",
        b"idle t t",
        b"attach t at A:1,",
        b"attach t at B:1,A:1",
        b"attach t at A:0",
        b"attach t at A:4611686018427387904",
        b"attach t to A:1",
        b"missing s 01",
        b"missing s 18446744073709551616",
        b"down t over",
        b"send t 1 imprecise b,a/* from - to -",
        b"write d a/x \"\\61\" 3@B over 1@A after A:2",
        b"write d a/x \"a\" 3@B over 0@A after A:2",
        b"delete d a/x \"\" 3@B over 1@A after A:2",
        b"drop B A",
        b"conflicts B a/x 1@A|1@B,",
        b"state B at A:2 cut - floor A:1 precise",
    ];
    for line in &table {
        assert!(rt; is_none(rt.alloc(), &decls, line));
    }
    Ok(())
}

// How many declarations there are behind these lines; None where one is no head line.
fn count(alloc: Global, first: &[u8], second: &[u8]) -> Option<usize> {
    let one = read_head(alloc, &no_decls(alloc), first).ok()??;
    let two = read_head(alloc, &one, second).ok()??;
    Some(two.as_slice().len())
}

#[test]
fn head_lines(rt: HostRuntime) -> Result<(), Fail> {
    let table: [(&[u8], Option<usize>); 10] = [
        (b"node B a/*,b", Some(2)),
        (b"client c A", Some(2)),
        (b"client c B", None),
        (b"node A", None),
        (b"node  B", None),
        (b"node B b,a/*", None),
        (b"node B # twice", None),
        (b"node B\nnode C", None),
        (b"settle", None),
        (b"", None),
    ];
    for (line, found) in &table {
        assert!(rt; count(rt.alloc(), b"node A *", line) == *found);
    }
    Ok(())
}

#[test]
fn beginnings_of_heads(rt: HostRuntime) -> Result<(), Fail> {
    assert!(rt; begins_head(b"node "));
    assert!(rt; begins_head(b"client c Z"));
    assert!(rt; begins_head(b"stream !"));
    assert!(rt; !begins_head(b"node"));
    assert!(rt; !begins_head(b" node A"));
    Ok(())
}

// The first path through all kinds of events of a write that is sent.
const FIRST: [&[u8]; 13] = [
    b"node A *",
    b"node B *",
    b"client c A",
    b"client d B",
    b"stream s A B *",
    b"attach s at -",
    b"write c a/x \"hi\" 1@A over - after -",
    b"send s 1 precise a/x 1@A over - from - to A:1",
    b"accept s 1 at A:1",
    b"read c a/x value 1@A \"hi\" at A:1",
    b"read d a/x body 1@A at A:1",
    b"idle s",
    b"ok 12",
];

// The number of the first bad line and what it breaks; or 0, and what the end breaks, which is 0 at a transcript.
fn judged(alloc: Global, lines: &[&[u8]]) -> Option<(usize, u8)> {
    let mut judge = Judge::new(alloc);
    for (at, line) in lines.iter().enumerate() {
        match judge.line(line) {
            Ok(Verdict::Good) => {}
            Ok(Verdict::Bad { why }) => return Some((at + 1, why)),
            Err(_) => return None,
        }
    }
    match judge.finish() {
        Ok(Some(_)) => Some((0, 0)),
        Ok(None) => Some((0, 4)),
        Err(_) => None,
    }
}

// What is said of the first path, where one line is another.
fn judged_with(alloc: Global, at: usize, line: &'static [u8]) -> Option<(usize, u8)> {
    let mut lines = FIRST;
    if at < lines.len() {
        lines[at] = line;
    }
    judged(alloc, &lines)
}

#[test]
fn a_transcript_is_judged(rt: HostRuntime) -> Result<(), Fail> {
    let alloc = rt.alloc();
    assert!(rt; judged(alloc, &FIRST) == Some((0, 0)));
    assert!(rt; judged(alloc, &FIRST[..12]) == Some((0, 4)));
    assert!(rt; judged(alloc, &FIRST[..0]) == Some((0, 4)));
    Ok(())
}

#[test]
fn a_line_that_is_another(rt: HostRuntime) -> Result<(), Fail> {
    let alloc = rt.alloc();
    let table: [(usize, &'static [u8], usize, u8); 8] = [
        (9, b"read c a/x never at A:1", 10, 3),
        (8, b"accept s 2 at A:1", 9, 3),
        (8, b"down s gap", 9, 3),
        (5, b"idle s", 6, 3),
        (6, b"node C *", 7, 2),
        (3, b"client c B", 4, 1),
        (12, b"ok 11", 13, 4),
        (7, b"ok 7", 9, 4),
    ];
    for (at, line, bad, why) in &table {
        assert!(rt; judged_with(alloc, *at, line) == Some((*bad, *why)));
    }
    Ok(())
}
