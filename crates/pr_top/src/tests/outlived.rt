// Runs that are kept on a disk, and what outlives a stop.
use super::{FIRST, FIRST_TEXT, Ports, SOUND, called};
use std::alloc::Global;
use std::sync::Wait;
use std::test::Fail;
use std::thread::Threads;

// The head lines of the first script, and what is told of it behind them.
const HEADS: usize = 55;

const STOPPED_AT_TEN: &[u8] = b"attach s at -\nwrite c a/x \"hi\" 1@A over - after -\n\
    state A at A:1 cut - floor - precise A:1 A:1\nstate B at - cut - floor - precise - -\nok 9\n";

const STOPPED_AT_NINE: &[u8] = b"attach s at -\nstate A at - cut - floor - precise - -\n\
    state B at - cut - floor - precise - -\nok 8\n";

// Whether so many calls of the disk give this text with this status.
fn outlives(
    rt: &(impl Threads + Wait + Sync),
    alloc: Global,
    script: &[u8],
    stop: &str,
    status: u8,
    text: &[u8],
) -> Result<bool, Fail> {
    let (number, told) = called(rt, alloc, &["kept", "--stop", stop], script, &SOUND)?;
    Ok(number == status && told.as_slice() == text)
}

// The same with the head lines of the first script before the text.
fn first_outlives(
    rt: &(impl Threads + Wait + Sync),
    alloc: Global,
    stop: &str,
    text: &[u8],
) -> Result<bool, Fail> {
    let mut all = Vec::from_slice(alloc, &FIRST_TEXT[..HEADS])?;
    all.extend_from_slice(text)?;
    outlives(rt, alloc, FIRST, stop, 0, &all)
}

#[test]
fn the_first_path_is_kept(rt: HostRuntime) -> Result<(), Fail> {
    let alloc = rt.alloc();
    let (number, told) = called(&rt, alloc, &["kept"], FIRST, &SOUND)?;
    assert!(rt; number == 0 && told.as_slice() == FIRST_TEXT);
    assert!(rt; first_outlives(&rt, alloc, "10", STOPPED_AT_TEN)?);
    assert!(rt; first_outlives(&rt, alloc, "9", STOPPED_AT_NINE)?);
    assert!(rt; outlives(&rt, alloc, FIRST, "1", 1, b"error usage\n")?);
    assert!(rt; outlives(&rt, alloc, FIRST, "30", 0, FIRST_TEXT)?);
    Ok(())
}

// Whether the judge of transcripts says yes to what so many calls leave of the script.
fn is_judged(
    rt: &(impl Threads + Wait + Sync),
    alloc: Global,
    script: &[u8],
    stop: u64,
) -> Result<bool, Fail> {
    let stop = format!(in alloc; "{stop}")?;
    let (kept, text) = called(rt, alloc, &["kept", "--stop", &stop], script, &SOUND)?;
    let (judged, verdict) = called(rt, alloc, &["check"], &text, &SOUND)?;
    Ok(kept == 0 && judged == 0 && verdict.starts_with(b"yes "))
}

#[test]
fn each_stop_leaves_a_transcript(rt: HostRuntime) -> Result<(), Fail> {
    for stop in 2..51 {
        assert!(rt; is_judged(&rt, rt.alloc(), FIRST, stop)?);
    }
    Ok(())
}

// A flow makes four entries, of which a stop keeps some; none of their lines was written before.
const FLOW: &[u8] = b"node A *\nnode B *\nclient c A\nstream s A B * bodies\nattach s\n\
    write c a/x \"hi\"\nflow s 3\nread c a/x\n";

const FLOW_TEXT: &[u8] = b"node A *\nnode B *\nclient c A\nstream s A B * bodies\nattach s at -\n\
    write c a/x \"hi\" 1@A over - after -\nsend s 1 precise a/x 1@A over - from - to A:1\n\
    accept s 1 at A:1\nsend s 2 body a/x 1@A \"hi\"\n\
    state A at A:1 cut - floor - precise A:1 A:1\n\
    state B at A:1 cut - floor - precise A:1 A:1\nok 11\n";

#[test]
fn lines_that_were_not_written_come_later(rt: HostRuntime) -> Result<(), Fail> {
    let alloc = rt.alloc();
    assert!(rt; outlives(&rt, alloc, FLOW, "22", 0, FLOW_TEXT)?);
    for stop in 2..40 {
        assert!(rt; is_judged(&rt, alloc, FLOW, stop)?);
    }
    Ok(())
}

// The read is kept by ten calls of the disk.
const UNMET: &[u8] = b"node A *\nclient c A\nwrite c a/x \"hi\"\nread c a/x\nexpect never\n\
    write c a/x \"ho\"\n";

#[test]
fn what_was_read_is_judged(rt: HostRuntime) -> Result<(), Fail> {
    let alloc = rt.alloc();
    let judged = b"node A *\nclient c A\nwrite c a/x \"hi\" 1@A over - after -\n\
        read c a/x value 1@A \"hi\" at A:1\nstate A at A:1 cut - floor - precise A:1 A:1\nok 5\n\
        unmet 5\n";
    assert!(rt; outlives(&rt, alloc, UNMET, "10", 8, judged)?);
    let unread = b"node A *\nclient c A\nwrite c a/x \"hi\" 1@A over - after -\n\
        state A at A:1 cut - floor - precise A:1 A:1\nok 4\n";
    assert!(rt; outlives(&rt, alloc, UNMET, "9", 0, unread)?);
    Ok(())
}

#[test]
fn a_sink_fails_behind_the_stop(rt: HostRuntime) -> Result<(), Fail> {
    let alloc = rt.alloc();
    let sink = Ports {
        source: (4096, &[]),
        sink: (60, &[3]),
    };
    let (number, text) = called(&rt, alloc, &["kept", "--stop=10"], FIRST, &sink)?;
    assert!(rt; number == 4);
    assert!(rt; text.len() > HEADS && FIRST_TEXT.starts_with(&text));
    Ok(())
}
