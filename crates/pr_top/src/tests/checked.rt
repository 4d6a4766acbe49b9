// Transcripts that are judged.
use super::{FIRST_TEXT, Ports, SOUND, called};
use std::alloc::Global;
use std::sync::Wait;
use std::test::Fail;
use std::thread::Threads;

const BAD: &[u8] = b"node A *\nnode A *\nok 2\n";

// The late smaller stamp, where one read is another.
const LATE: &[u8] =
    b"node A\nnode B *\nnode C *\nclient c A\nclient d B\nclient e C\nstream s A B *\n\
    stream t B C *\nattach s at -\nattach t at -\nwrite c a/x \"late\" 1@A over - after -\n\
    write d a/y \"one\" 1@B over - after -\nwrite d a/y \"two\" 2@B over 1@B after B:1\n\
    send t 1 precise a/y 1@B over - from - to B:1\naccept t 1 at B:1\n\
    send t 2 precise a/y 2@B over 1@B from B:1 to B:2\naccept t 2 at B:2\nidle t\n\
    send s 1 precise a/x 1@A over - from - to A:1\naccept s 1 at A:1,B:2\nidle s\n\
    send t 3 precise a/x 1@A over - from B:2 to A:1,B:2\naccept t 3 at A:1,B:2\nidle t\n\
    read e a/x never at A:1,B:2\nok 25\n";

fn says(
    rt: &(impl Threads + Wait + Sync),
    alloc: Global,
    text: &[u8],
    ports: &Ports,
    status: u8,
    line: &[u8],
) -> Result<bool, Fail> {
    let (number, told) = called(rt, alloc, &["check"], text, ports)?;
    Ok(number == status && told.as_slice() == line)
}

#[test]
fn texts(rt: HostRuntime) -> Result<(), Fail> {
    assert!(rt; says(&rt, rt.alloc(), FIRST_TEXT, &SOUND, 0, b"yes 12\n")?);
    assert!(rt; says(&rt, rt.alloc(), b"", &SOUND, 10, b"no 1 why 4\n")?);
    let short = &FIRST_TEXT[..FIRST_TEXT.len() - 6];
    assert!(rt; says(&rt, rt.alloc(), short, &SOUND, 10, b"no 13 why 4\n")?);
    assert!(rt; says(&rt, rt.alloc(), BAD, &SOUND, 10, b"no 2 why 1\n")?);
    assert!(rt; says(&rt, rt.alloc(), LATE, &SOUND, 10, b"no 25 why 3\n")?);
    Ok(())
}

#[test]
fn ports_that_fail(rt: HostRuntime) -> Result<(), Fail> {
    let source = Ports {
        source: (10, &[3]),
        sink: (5, &[]),
    };
    assert!(rt; says(&rt, rt.alloc(), FIRST_TEXT, &source, 3, b"error read\n")?);
    assert!(rt; says(&rt, rt.alloc(), BAD, &source, 3, b"error read\n")?);
    let sink = Ports {
        source: (10, &[]),
        sink: (3, &[2]),
    };
    assert!(rt; says(&rt, rt.alloc(), FIRST_TEXT, &sink, 4, b"yes")?);
    Ok(())
}
