// Asks and their answers, of a worked script.
use super::{Ports, SOUND, called};
use std::alloc::Global;
use std::sync::Wait;
use std::test::Fail;
use std::thread::Threads;

const SCRIPT: &[u8] = b"node A *\nnode B *\nclient c A\nstream s A B *\nwrite c a/x \"hi\"\n";

// The ask of B for the stream, and what A answers.
const ASK: &[u8] = &[
    0x51, 0, 0, 0, 0, 0, 0, 0, 0, 0, 0, 0, 0, 1, 0x01, 0x2d, 0x00, 0x00, 0, 0, 0, 0, 0, 0x0f, 0x42,
    0x40,
];

const ANSWER: &[u8] = &[
    2, 0, 0, 0, 0, 0, 0, 0, 47, 1, 0, 0, 0, 0, 0, 0, 0, 2, 0, 0, 0, 0, 0, 0, 0, 0, 0, 0, 0, 1, 0,
    1, 0, 0, 0, 0, 0, 0, 0, 0, 1, 3, 97, 47, 120, 0, 0, 0, 0, 0, 0, 0, 1, 0, 0, 0, 0,
];

const LINES: &[u8] = b"node A *\nnode B *\nclient c A\nstream s A B *\n\
    write c a/x \"hi\" 1@A over - after -\n";

// The script, a byte 0, and what stands behind it.
fn with(alloc: Global, behind: &[u8]) -> Result<Vec<u8>, Fail> {
    let mut input = Vec::from_slice(alloc, SCRIPT)?;
    input.push(0)?;
    input.extend_from_slice(behind)?;
    Ok(input)
}

// What is written with this status, behind the lines of the script.
fn pulls(
    rt: &(impl Threads + Wait + Sync),
    alloc: Global,
    behind: &[u8],
    ports: &Ports,
    status: u8,
    last: &[u8],
) -> Result<bool, Fail> {
    let (number, text) = called(
        rt,
        alloc,
        &["pull", "--node", "B"],
        &with(alloc, behind)?,
        ports,
    )?;
    let (lines, rest) = text.as_slice().split_at(LINES.len().min(text.len()));
    Ok(number == status && lines == LINES && rest == last)
}

fn serves(
    rt: &(impl Threads + Wait + Sync),
    alloc: Global,
    behind: &[u8],
    ports: &Ports,
    status: u8,
    answer: &[u8],
) -> Result<bool, Fail> {
    let input = with(alloc, behind)?;
    let (number, text) = called(rt, alloc, &["serve", "--node", "A"], &input, ports)?;
    Ok(number == status && text.as_slice() == answer)
}

#[test]
fn asks_are_served(rt: HostRuntime) -> Result<(), Fail> {
    assert!(rt; serves(&rt, rt.alloc(), ASK, &SOUND, 0, ANSWER)?);
    assert!(rt; serves(&rt, rt.alloc(), b"", &SOUND, 0, b"")?);
    assert!(rt; serves(&rt, rt.alloc(), &ASK[..25], &SOUND, 11, b"")?);
    let small = Ports {
        source: (7, &[]),
        sink: (5, &[]),
    };
    assert!(rt; serves(&rt, rt.alloc(), ASK, &small, 0, ANSWER)?);
    let (number, text) = called(&rt, rt.alloc(), &["serve", "--node", "C"], SCRIPT, &SOUND)?;
    assert!(rt; number == 12 && text.is_empty());
    let (number, text) = called(&rt, rt.alloc(), &["serve", "--node", "A"], b"x\0", &SOUND)?;
    assert!(rt; number == 2 && text.is_empty());
    Ok(())
}

#[test]
fn answers_are_pulled(rt: HostRuntime) -> Result<(), Fail> {
    let whole = b"accept s 1 at A:1\nok 6\n";
    assert!(rt; pulls(&rt, rt.alloc(), ANSWER, &SOUND, 0, whole)?);
    assert!(rt; pulls(&rt, rt.alloc(), b"", &SOUND, 0, b"ok 5\n")?);
    assert!(rt;
        pulls(
            &rt,
            rt.alloc(),
            &ANSWER[..55],
            &SOUND,
            11,
            b"error bytes 0\n"
        )?
    );
    let small = Ports {
        source: (7, &[]),
        sink: (5, &[]),
    };
    assert!(rt; pulls(&rt, rt.alloc(), ANSWER, &small, 0, whole)?);
    Ok(())
}

#[test]
fn pulls_stop(rt: HostRuntime) -> Result<(), Fail> {
    let (number, text) = called(&rt, rt.alloc(), &["pull", "--node", "C"], SCRIPT, &SOUND)?;
    assert!(rt; number == 12 && text.as_slice() == b"error no node\n".as_slice());
    let to_a = with(rt.alloc(), ANSWER)?;
    let (number, text) = called(&rt, rt.alloc(), &["pull", "--node", "A"], &to_a, &SOUND)?;
    assert!(rt; number == 11 && text.as_slice().ends_with(b"error bytes 0\n"));
    let (number, text) = called(&rt, rt.alloc(), &["pull", "--node", "B"], b"x\0", &SOUND)?;
    assert!(rt; number == 2 && text.as_slice() == b"error line 1 why 2\n".as_slice());
    Ok(())
}

#[test]
fn ports_fail(rt: HostRuntime) -> Result<(), Fail> {
    let source = Ports {
        source: (62, &[2]),
        sink: (65536, &[]),
    };
    assert!(rt; pulls(&rt, rt.alloc(), ANSWER, &source, 3, b"error read\n")?);
    assert!(rt; serves(&rt, rt.alloc(), ASK, &source, 3, b"")?);
    let sink = Ports {
        source: (4096, &[]),
        sink: (50, &[2]),
    };
    assert!(rt; serves(&rt, rt.alloc(), ASK, &sink, 4, &ANSWER[..50])?);
    Ok(())
}
