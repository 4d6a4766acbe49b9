mod asked;
mod beside;
mod checked;
mod outlived;
mod served;
mod worked;
mod worked_more;

use crate::practi;
use pr_crew::FreeGate;
use pr_ports::{MemorySink, MemorySource};
use pr_wires::TrueWires;
use std::alloc::Global;
use std::sync::Wait;
use std::test::Fail;
use std::thread::Threads;

const FIRST: &[u8] = b"node A *\nnode B *\nclient c A\nclient d B\nstream s A B *\nattach s\n\
    write c a/x \"hi\"\nsend s\ndeliver s 1\nread c a/x\nread d a/x\nsend s\n";

const FIRST_TEXT: &[u8] = b"node A *\nnode B *\nclient c A\nclient d B\nstream s A B *\n\
    attach s at -\nwrite c a/x \"hi\" 1@A over - after -\n\
    send s 1 precise a/x 1@A over - from - to A:1\naccept s 1 at A:1\n\
    read c a/x value 1@A \"hi\" at A:1\nread d a/x body 1@A at A:1\nidle s\nok 12\n";

// A call of `sim`, and how its source and its sink behave: the bytes of a call, and the calls that fail.
#[derive(Clone, Copy)]
struct Ports<'a> {
    source: (usize, &'a [u64]),
    sink: (usize, &'a [u64]),
}

const SOUND: Ports<'static> = Ports {
    source: (4096, &[]),
    sink: (65536, &[]),
};

const BYTE_BY_BYTE: Ports<'static> = Ports {
    source: (1, &[]),
    sink: (65536, &[]),
};

// What a call answers, as an exit status, and the text that its sink took.
fn called(
    rt: &(impl Threads + Wait + Sync),
    alloc: Global,
    words: &[&str],
    script: &[u8],
    ports: &Ports,
) -> Result<(u8, Vec<u8>), Fail> {
    let mut list = Vec::new(alloc);
    for word in words {
        list.push(String::from_str(alloc, word)?)?;
    }
    let fail = Vec::from_slice(alloc, ports.source.1)?;
    let bytes = Vec::from_slice(alloc, script)?;
    let mut source = MemorySource::new(bytes, ports.source.0.max(1), fail);
    let fail = Vec::from_slice(alloc, ports.sink.1)?;
    let mut sink = MemorySink::new(alloc, 65536, ports.sink.0.max(1), fail)
        .ok()
        .ok_or("no memory")?;
    let status = practi(
        rt,
        alloc,
        &list,
        &mut source,
        &mut sink,
        &mut TrueWires::new(),
        &FreeGate,
    );
    Ok((status.number(), Vec::from_slice(alloc, sink.bytes())?))
}

fn answers(
    rt: &(impl Threads + Wait + Sync),
    alloc: Global,
    script: &[u8],
    ports: &Ports,
    status: u8,
    text: &[u8],
) -> Result<bool, Fail> {
    let (number, told) = called(rt, alloc, &["sim"], script, ports)?;
    Ok(number == status && told.as_slice() == text)
}

// Whether a script gives this text, however many bytes come in a call.
fn gives(
    rt: &(impl Threads + Wait + Sync),
    alloc: Global,
    script: &[u8],
    text: &[u8],
) -> Result<bool, Fail> {
    let whole = answers(rt, alloc, script, &SOUND, 0, text)?;
    Ok(whole && answers(rt, alloc, script, &BYTE_BY_BYTE, 0, text)?)
}

#[test]
fn first_path(rt: HostRuntime) -> Result<(), Fail> {
    assert!(rt; gives(&rt, rt.alloc(), FIRST, FIRST_TEXT)?);
    let small = Ports {
        source: (10, &[]),
        sink: (5, &[]),
    };
    assert!(rt; answers(&rt, rt.alloc(), FIRST, &small, 0, FIRST_TEXT)?);
    assert!(rt; gives(&rt, rt.alloc(), b"", b"ok 0\n")?);
    Ok(())
}

#[test]
fn ports_that_fail(rt: HostRuntime) -> Result<(), Fail> {
    let source = Ports {
        source: (10, &[3]),
        sink: (5, &[]),
    };
    assert!(rt; answers(&rt, rt.alloc(), FIRST, &source, 3, b"error read\n")?);
    let sink = Ports {
        source: (10, &[]),
        sink: (5, &[2]),
    };
    assert!(rt; answers(&rt, rt.alloc(), FIRST, &sink, 4, b"node ")?);
    Ok(())
}

const UNMET: &[u8] = b"node A *\nclient c A\nwrite c a/x \"hi\"\nread c a/x\nexpect value \"ho\"\n\
    write c a/x \"hu\"\n";

const UNMET_TEXT: &[u8] = b"node A *\nclient c A\nwrite c a/x \"hi\" 1@A over - after -\n\
    read c a/x value 1@A \"hi\" at A:1\nwrite c a/x \"hu\" 2@A over 1@A after A:1\nok 5\n\
    unmet 5\n";

#[test]
fn an_expectation_that_is_not_met(rt: HostRuntime) -> Result<(), Fail> {
    assert!(rt; answers(&rt, rt.alloc(), UNMET, &SOUND, 8, UNMET_TEXT)?);
    Ok(())
}

// The script comes in nine calls of its source, and the tenth says that it ended.
#[test]
fn each_call_of_a_source_fails(rt: HostRuntime) -> Result<(), Fail> {
    for call in 1..11 {
        let failing = Ports {
            source: (10, &[call]),
            sink: (65536, &[]),
        };
        assert!(rt;
            answers(&rt, rt.alloc(), UNMET, &failing, 3, b"error read\n")?,
            "call {call}"
        );
    }
    let behind = Ports {
        source: (10, &[11]),
        sink: (65536, &[]),
    };
    assert!(rt; answers(&rt, rt.alloc(), UNMET, &behind, 8, UNMET_TEXT)?);
    Ok(())
}

#[test]
fn each_call_of_a_sink_fails(rt: HostRuntime) -> Result<(), Fail> {
    for call in 1..21 {
        let failing = Ports {
            source: (10, &[]),
            sink: (5, &[call]),
        };
        let (status, text) = called(&rt, rt.alloc(), &["sim"], UNMET, &failing)?;
        assert_eq!(rt; status, 4, "call {call}");
        assert!(rt; text.len() < UNMET_TEXT.len() && UNMET_TEXT.starts_with(&text));
    }
    Ok(())
}

// The summaries of two small workloads.
const SEED_SEVEN: &[u8] = b"writes 4\n\
    reads 0\n\
    values 0\n\
    nevers 0\n\
    imprecises 0\n\
    bodies 0\n\
    attaches 32\n\
    precise 11\n\
    imprecise 24\n\
    body 3\n\
    checkpoint 0\n\
    accepts 38\n\
    gaps 0\n\
    idles 50\n\
    stales 0\n\
    downs 0\n\
    vector N0 N0:1,N2:1,N4:1,N6:1\n\
    vector N1 N0:1,N2:1,N4:1,N6:1\n\
    vector N2 N0:1,N2:1,N4:1,N6:1\n\
    vector N3 N0:1,N2:1,N4:1,N6:1\n\
    vector N4 N0:1,N2:1,N4:1,N6:1\n\
    vector N5 N0:1,N2:1,N4:1,N6:1\n\
    vector N6 N0:1,N2:1,N4:1,N6:1\n\
    vector N7 N0:1,N2:1,N4:1,N6:1\n\
    ok 162\n";

const SEED_ZERO: &[u8] = b"writes 33\n\
    reads 12\n\
    values 0\n\
    nevers 11\n\
    imprecises 1\n\
    bodies 0\n\
    attaches 34\n\
    precise 89\n\
    imprecise 71\n\
    body 21\n\
    checkpoint 0\n\
    accepts 181\n\
    gaps 0\n\
    idles 69\n\
    stales 0\n\
    downs 0\n\
    vector N0 N0:5,N1:6,N2:5,N3:3,N4:6,N5:2,N6:2,N7:6\n\
    vector N1 N0:5,N1:6,N2:5,N3:3,N4:6,N5:2,N6:2,N7:6\n\
    vector N2 N0:5,N1:6,N2:5,N3:3,N4:6,N5:2,N6:2,N7:6\n\
    vector N3 N0:5,N1:6,N2:5,N3:3,N4:6,N5:2,N6:2,N7:6\n\
    vector N4 N0:5,N1:6,N2:5,N3:3,N4:6,N5:2,N6:2,N7:6\n\
    vector N5 N0:5,N1:6,N2:5,N3:3,N4:6,N5:2,N6:2,N7:6\n\
    vector N6 N0:5,N1:6,N2:5,N3:3,N4:6,N5:2,N6:2,N7:6\n\
    vector N7 N0:5,N1:6,N2:5,N3:3,N4:6,N5:2,N6:2,N7:6\n\
    ok 510\n";

#[test]
fn generated_scripts(rt: HostRuntime) -> Result<(), Fail> {
    let five = called(
        &rt,
        rt.alloc(),
        &["gen", "--seed", "7", "--size", "5"],
        FIRST,
        &SOUND,
    )?;
    assert!(rt; five.0 == 0 && five.1.as_slice() == SEED_SEVEN);
    let sixty = called(
        &rt,
        rt.alloc(),
        &["--size=60", "--seed=0", "gen"],
        b"",
        &SOUND,
    )?;
    assert!(rt; sixty.0 == 0 && sixty.1.as_slice() == SEED_ZERO);
    Ok(())
}

#[test]
fn words_that_are_not_accepted(rt: HostRuntime) -> Result<(), Fail> {
    let lists: [&[&str]; 9] = [
        &[],
        &["sim", "x"],
        &["run", "x"],
        &["gen"],
        &["gen", "--seed", "7"],
        &["sim", "--seed", "7"],
        &["gen", "--seed", "07", "--size", "5"],
        &["gen", "--seed", "7", "--size", "0"],
        &["gen", "--seed", "7", "--size", "90001"],
    ];
    for words in lists {
        let (status, text) = called(&rt, rt.alloc(), words, b"", &SOUND)?;
        assert_eq!(rt; status, 1);
        assert_eq!(rt; text.as_slice(), b"error usage\n".as_slice());
    }
    Ok(())
}

#[test]
fn scripts_that_are_refused(rt: HostRuntime) -> Result<(), Fail> {
    let detached = b"node A\nnode B\nstream s A B *\nattach s\ndetach s\nflow s 1\n";
    assert!(rt;
        answers(
            &rt,
            rt.alloc(),
            detached,
            &SOUND,
            2,
            b"error line 6 why 12\n"
        )?
    );
    assert!(rt;
        answers(
            &rt,
            rt.alloc(),
            b"node A a/* a/x\n",
            &SOUND,
            2,
            b"error line 1 why 11\n"
        )?
    );
    Ok(())
}

#[test]
fn sizes(rt: HostRuntime) -> Result<(), Fail> {
    let alloc = rt.alloc();
    let whole = Ports {
        source: (4194304, &[]),
        sink: (100, &[]),
    };
    let mut large = vec![in alloc; b'#'; 4194304]?;
    assert!(rt; answers(&rt, rt.alloc(), &large, &whole, 0, b"ok 0\n")?);
    large.push(b'#')?;
    assert!(rt; answers(&rt, rt.alloc(), &large, &whole, 5, b"error too large\n")?);
    let mut lines = vec![in alloc; b'\n'; 100000]?;
    assert!(rt; answers(&rt, rt.alloc(), &lines, &whole, 0, b"ok 0\n")?);
    lines.push(b'\n')?;
    assert!(rt; answers(&rt, rt.alloc(), &lines, &whole, 5, b"error too large\n")?);
    Ok(())
}
