ghost use Rattle.std.specs.Prelude.{◌<◌};

mod examples;
mod jobs;
mod labels;
mod long;

use crate::{Bytes, Reader, Script, ScriptFault, print, read};
use examples::{CACHE, CHECKPOINT, HOME, PHASE, RING};
use long::{DELETES, DEVICES, HOPS, MOVES};
use pr_stamps::Seq;
use std::alloc::Global;
use std::test::Fail;

// The line and the rule of the first fault; line 0 for none.
fn fault(alloc: Global, script: &[u8]) -> (u64, u8) {
    match read(alloc, script) {
        Ok(_) => (0, 0),
        Err(ScriptFault::Bad { line, why }) => (line, why),
        Err(ScriptFault::NoMemory) => (0, 255),
    }
}

const PAIR: &[u8] = b"node A *\nnode B *\nclient c A\nclient d B\nstream s A B *\nattach s\n";

// The fault of the lines behind those of two nodes with a client each and an attached stream.
fn fault_behind(alloc: Global, lines: &[u8]) -> Result<(u64, u8), Fail> {
    let mut script = Seq::copied(alloc, PAIR).ok().ok_or("no memory")?;
    script.extend(lines).ok().ok_or("no memory")?;
    let (line, why) = fault(alloc, script.as_slice());
    Ok((line.saturating_sub(6), why))
}

#[test]
fn each_rule_is_named(rt: HostRuntime) {
    let cases: [(&[u8], u64, u8); 21] = [
        (b"node\tA *", 1, 1),
        (b"nod A", 1, 2),
        (b"client c", 1, 3),
        (b"node A!", 1, 4),
        (b"node A\nclient c A\nwrite c A/x \"\"", 3, 5),
        (b"node A b:a", 1, 6),
        (b"node A\nnode B\nstream s A B *\ndeliver s 0", 4, 7),
        (b"node A\nnode A", 2, 8),
        (b"client c A", 1, 9),
        (b"node A a/* a/x", 1, 11),
        (b"node A\nnode B\nstream s A B *\nsend s", 4, 12),
        (b"phase", 2, 12),
        (b"phase\n", 2, 12),
        (b"# \xff\n\n  \nphase\n\n#", 7, 12),
        (b"node A ~", 1, 6),
        (b"node A! ~", 1, 4),
        (b"node A\nnode B\nstream s A A *", 3, 12),
        (b"node A\nnode B\nstream s A B * all", 3, 3),
        (b"node A\nsettle\nnode B", 3, 12),
        (b"node A\nclient A A", 2, 8),
        (
            b"node A\nnode B\nstream s A B *\nattach s\ndetach s\nflow s 1",
            6,
            12,
        ),
    ];
    for (script, line, why) in cases {
        assert_eq!(rt; fault(rt.alloc(), script), (line, why));
    }
}

#[test]
fn reads_and_expectations(rt: HostRuntime) -> Result<(), Fail> {
    let cases: [(&[u8], u64, u8); 8] = [
        (b"read c a/x\n# a comment\n\nexpect never", 0, 0),
        (b"write c a/x \"\"\nexpect never", 2, 12),
        (b"read c a/x\nexpect gone", 0, 0),
        (b"read c a/x\nexpect behind", 0, 0),
        (b"read c a/x\nexpect lost", 2, 3),
        (b"read c a/x\nexpect value \"a\" b", 2, 3),
        (b"read c a/x\nexpect never \"a\"", 2, 3),
        (b"read c \"a\"", 1, 5),
    ];
    for (lines, line, why) in cases {
        assert_eq!(rt; fault_behind(rt.alloc(), lines)?, (line, why));
    }
    Ok(())
}

#[test]
fn quoted_texts(rt: HostRuntime) -> Result<(), Fail> {
    let cases: [(&[u8], u64, u8); 5] = [
        (b"write c a/x \"\\41\"", 1, 3),
        (b"write c a/x \"\\0a \\22\\5c\"", 0, 0),
        (b"write c a/x \"\\0A\"", 1, 3),
        (b"write c a/x \"a\"b", 1, 3),
        (b"write c a/x a", 1, 3),
    ];
    for (lines, line, why) in cases {
        assert_eq!(rt; fault_behind(rt.alloc(), lines)?, (line, why));
    }
    Ok(())
}

const JOBS: &[u8] = b"phase\ndelete c a/x\nwrite c a/y \"\"\nread d a/x\nflow s 1\nend";

#[test]
fn phases(rt: HostRuntime) -> Result<(), Fail> {
    let cases: [(&[u8], u64, u8); 6] = [
        (JOBS, 0, 0),
        (b"phase\nmove c B\nend", 2, 12),
        (b"phase\nread c a/x\nexpect never\nend", 3, 12),
        (b"phase\nphase", 2, 12),
        (b"end", 1, 12),
        (b"phase\nflow s 1\nflow s 1\nend", 3, 12),
    ];
    for (lines, line, why) in cases {
        assert_eq!(rt; fault_behind(rt.alloc(), lines)?, (line, why));
    }
    Ok(())
}

#[test]
fn labels_and_names(rt: HostRuntime) -> Result<(), Fail> {
    let cases: [(&[u8], u64, u8); 5] = [
        (b"  delete   c  a/x  ", 0, 0),
        (b"move c B\nmove c c", 2, 9),
        (b"move c A!", 1, 4),
        (b"cut A\nstate B\ndrop A a/x\nconflicts B a/x\nsettle", 0, 0),
        (b"cut s", 1, 9),
    ];
    for (lines, line, why) in cases {
        assert_eq!(rt; fault_behind(rt.alloc(), lines)?, (line, why));
    }
    Ok(())
}

const GREATEST: &[u8] = b"deliver s 4611686018427387903\ndeliver s 4611686018427387904";

#[test]
fn numbers(rt: HostRuntime) -> Result<(), Fail> {
    let cases: [(&[u8], u64, u8); 6] = [
        (GREATEST, 2, 7),
        (b"deliver s 01", 1, 7),
        (b"deliver s 184467440737095516170", 1, 7),
        (b"flow s 1000001", 1, 7),
        (b"flow s 600000\nflow s 400000\nflow s 1", 3, 10),
        (b"checkpoint s\nsend s 1", 2, 3),
    ];
    for (lines, line, why) in cases {
        assert_eq!(rt; fault_behind(rt.alloc(), lines)?, (line, why));
    }
    Ok(())
}

// The line, so many times with the numbers from 0 in the place of its `#`.
fn numbered(alloc: Global, count: u32, line: &[u8]) -> Result<Bytes, Fail> {
    let mut lines = Seq::new(alloc);
    for n in 0..count {
        let number = format!(in alloc; "{n}")?;
        for b in line {
            if *b == b'#' {
                lines.extend(number.as_bytes()).ok().ok_or("no memory")?;
            } else {
                lines.push(*b).ok().ok_or("no memory")?;
            }
        }
    }
    Ok(lines)
}

// A text between others, so many times.
fn repeated(
    alloc: Global,
    front: &[u8],
    count: u32,
    text: &[u8],
    end: &[u8],
) -> Result<Bytes, Fail> {
    let mut all = Seq::copied(alloc, front).ok().ok_or("no memory")?;
    let more = numbered(alloc, count, text)?;
    all.extend(more.as_slice()).ok().ok_or("no memory")?;
    all.extend(end).ok().ok_or("no memory")?;
    Ok(all)
}

#[test]
fn limits_are_kept(rt: HostRuntime) -> Result<(), Fail> {
    let cases: [(&[u8], u32, &[u8], &[u8], u64, u8); 12] = [
        (b"", 32, b"node N#\n", b"", 0, 0),
        (b"", 33, b"node N#\n", b"", 33, 10),
        (b"node A", 16, b" a/#", b"", 0, 0),
        (b"node A", 17, b" a/#", b"", 1, 10),
        (b"node A a", 15, b",a/#", b"", 0, 0),
        (b"node A a", 16, b",a/#", b"", 1, 6),
        (b"node A\n", 257, b"client c# A\n", b"", 258, 10),
        (b"node A\nnode B\n", 65, b"stream s# A B *\n", b"", 67, 10),
        (b"node A\nclient c A\nwrite c a \"", 1024, b"x", b"\"", 0, 0),
        (
            b"node A\nclient c A\nwrite c a \"",
            1025,
            b"x",
            b"\"",
            3,
            10,
        ),
        (
            b"node A\nclient c A\nread c a\nexpect value \"",
            1025,
            b"x",
            b"\"",
            4,
            10,
        ),
        (b"node A\nclient c A\nread c ", 65, b"x", b"", 3, 5),
    ];
    for (front, count, text, end, line, why) in cases {
        let script = repeated(rt.alloc(), front, count, text, end)?;
        assert_eq!(rt; fault(rt.alloc(), script.as_slice()), (line, why));
    }
    Ok(())
}

// A phase with so many clients, each with a line, and these lines behind.
fn phase_of(alloc: Global, count: u32, end: &[u8]) -> Result<Bytes, Fail> {
    let mut script = repeated(alloc, b"node A\nnode B\n", 65, b"client c# A\n", b"")?;
    let streams = b"stream s A B *\nstream t A B *\nattach s\nphase\n".as_slice();
    let lines = repeated(alloc, streams, count, b"read c# a\n", end)?;
    script.extend(lines.as_slice()).ok().ok_or("no memory")?;
    Ok(script)
}

#[test]
fn a_phase_has_at_most_64_jobs(rt: HostRuntime) -> Result<(), Fail> {
    let cases: [(u32, &[u8], u64, u8); 6] = [
        (64, b"read c0 b\nend", 0, 0),
        (64, b"read c64 a\nend", 136, 10),
        (64, b"flow s 1\nend", 136, 10),
        (63, b"flow s 1\nflow s 1\nend", 136, 10),
        (62, b"flow s 1\nflow s 1\nend", 135, 12),
        (62, b"flow t 1\nend", 134, 12),
    ];
    for (count, end, line, why) in cases {
        let script = phase_of(rt.alloc(), count, end)?;
        assert_eq!(rt; fault(rt.alloc(), script.as_slice()), (line, why));
    }
    Ok(())
}

#[test]
fn empty_lines_are_counted(rt: HostRuntime) -> Result<(), Fail> {
    let cases: [(&[u8], u64, u8); 2] = [(b"", 0, 0), (b"nod", 100001, 2)];
    for (end, line, why) in cases {
        let script = repeated(rt.alloc(), b"", 100000, b"\n", end)?;
        assert_eq!(rt; fault(rt.alloc(), script.as_slice()), (line, why));
    }
    Ok(())
}

// What a reader answers that is given the script in pieces of this size.
fn in_pieces(alloc: Global, script: &[u8], size: usize) -> Result<Script, ScriptFault>
    requires { 0 < size }
{
    let mut reader = Reader::new(alloc);
    for piece in script.chunks(size) {
        if reader.push(piece).is_err() {
            return Err(ScriptFault::NoMemory);
        }
    }
    reader.finish()
}

#[test]
fn pieces_are_read_as_the_whole(rt: HostRuntime) {
    for size in 1..9 {
        let script = in_pieces(rt.alloc(), PAIR, size);
        assert_eq!(rt; counts(&script), (5, 1));
        let bad = in_pieces(rt.alloc(), b"node A\n\nnode B\nnod", size).err();
        assert_eq!(rt; bad, Some(ScriptFault::Bad { line: 4, why: 2 }));
    }
}

fn counts(script: &Result<Script, ScriptFault>) -> (usize, usize) {
    match script {
        Ok(script) => (script.decls.as_slice().len(), script.commands.len()),
        Err(_) => (0, 0),
    }
}

// The script, read and printed.
fn printed(alloc: Global, script: &[u8]) -> Result<Bytes, Fail> {
    let script = read(alloc, script).ok().ok_or("a script")?;
    let mut out = Seq::new(alloc);
    print(&script, &mut out).ok().ok_or("no memory")?;
    Ok(out)
}

#[test]
fn examples_are_read_and_printed(rt: HostRuntime) -> Result<(), Fail> {
    let examples: [&[u8]; 5] = [HOME, CACHE, RING, CHECKPOINT, PHASE];
    for script in examples {
        let once = printed(rt.alloc(), script)?;
        let twice = printed(rt.alloc(), once.as_slice())?;
        assert_eq!(rt; once.as_slice(), twice.as_slice());
    }
    Ok(())
}

#[test]
fn long_scripts_are_printed_as_they_stand(rt: HostRuntime) -> Result<(), Fail> {
    let scripts: [&[u8]; 4] = [HOPS, DEVICES, DELETES, MOVES];
    for script in scripts {
        let once = printed(rt.alloc(), script)?;
        assert_eq!(rt; once.as_slice(), script);
        let twice = printed(rt.alloc(), once.as_slice())?;
        assert_eq!(rt; twice.as_slice(), script);
    }
    Ok(())
}

#[test]
fn lines_are_printed_in_one_way(rt: HostRuntime) -> Result<(), Fail> {
    let cases: [(&[u8], &[u8]); 4] = [
        (b"  node A  b,a/*\nnode B", b"node A a/*,b\nnode B\n"),
        (
            b"node A *\nnode B\n# c\nclient d B\nstream s A B b,c bodies\nattach s\nflow  s 20",
            b"node A *\nnode B\nclient d B\nstream s A B b,c bodies\nattach s\nflow s 20\n",
        ),
        (
            b"node A\nclient c A\nwrite c a \"x \\0a\\22\"\nread c a\n\nexpect value \"\\ff\"",
            b"node A\nclient c A\nwrite c a \"x \\0a\\22\"\nread c a\nexpect value \"\\ff\"\n",
        ),
        (
            b"node A\nnode B\nclient c A\nmove c B\nconflicts B x\nphase\ndelete c x\nend\nsettle",
            b"node A\nnode B\nclient c A\nmove c B\nconflicts B x\nphase\ndelete c x\nend\nsettle\n",
        ),
    ];
    for (script, text) in cases {
        assert_eq!(rt; printed(rt.alloc(), script)?.as_slice(), text);
    }
    Ok(())
}
