// Pictures of small texts.
use crate::draw;
use pr_ports::{MemorySink, MemorySource};
use std::alloc::Global;
use std::test::Fail;

// A body is lost, and an invalidation is refused.
const SMALL: &[u8] = b"node A *\n\
    node B *\n\
    client c A\n\
    client d B\n\
    stream s A B * bodies\n\
    attach s at -\n\
    write c a \"<&>\" 1@A over - after -\n\
    send s 1 precise a 1@A over - from - to A:1\n\
    send s 2 body a 1@A \"<&>\"\n\
    delete c a 2@A over 1@A after A:1\n\
    send s 3 gone a 2@A over 1@A from A:1 to A:2\n\
    gap s 3 needs A:1 has -\n\
    accept s 1 at A:1\n\
    read d a body 1@A at A:1\n\
    ok 14\n";

// The groups of its lines, and the end.
const GROUPS: &[u8] =
    b"<g><title>node A *</title><line class=\"lifeline near\" x1=\"76\" y1=\"202\" x2=\"76\" y2=\"618\"/><text class=\"name\" x=\"76\" y=\"206\">A</text><use href=\"#node\" x=\"76\" y=\"228\"/><text class=\"words\" x=\"90\" y=\"232\">node A *</text><text class=\"number\" x=\"48\" y=\"232\">1</text></g>\n\
    <g><title>node B *</title><line class=\"lifeline near\" x1=\"296\" y1=\"202\" x2=\"296\" y2=\"618\"/><text class=\"name\" x=\"296\" y=\"206\">B</text><use href=\"#node\" x=\"296\" y=\"254\"/><text class=\"words\" x=\"310\" y=\"258\">node B *</text><text class=\"number\" x=\"48\" y=\"258\">2</text></g>\n\
    <g><title>client c A</title><use href=\"#client\" x=\"76\" y=\"280\"/><text class=\"words\" x=\"90\" y=\"284\">client c A</text><text class=\"number\" x=\"48\" y=\"284\">3</text></g>\n\
    <g><title>client d B</title><use href=\"#client\" x=\"296\" y=\"306\"/><text class=\"words\" x=\"310\" y=\"310\">client d B</text><text class=\"number\" x=\"48\" y=\"310\">4</text></g>\n\
    <g><title>stream s A B * bodies</title><line class=\"stream near\" x1=\"76\" y1=\"332\" x2=\"296\" y2=\"332\"/><text class=\"words\" x=\"90\" y=\"328\">stream s A B * bodies</text><text class=\"number\" x=\"48\" y=\"336\">5</text></g>\n\
    <g><title>attach s at -</title><use href=\"#attach\" x=\"296\" y=\"358\"/><text class=\"words\" x=\"310\" y=\"362\">attach s at -</text><text class=\"number\" x=\"48\" y=\"362\">6</text></g>\n\
    <g><title>write c a &quot;&lt;&amp;&gt;&quot; 1@A over - after -</title><use href=\"#write\" x=\"76\" y=\"384\"/><text class=\"words\" x=\"90\" y=\"388\">write c a &quot;&lt;&amp;&gt;&quot; 1@A</text><text class=\"number\" x=\"48\" y=\"388\">7</text></g>\n\
    <g><title>send s 1 precise a 1@A over - from - to A:1</title><line class=\"precise near\" x1=\"76\" y1=\"410\" x2=\"296\" y2=\"540\"/><text class=\"words\" x=\"90\" y=\"406\">s 1 precise a 1@A</text><text class=\"number\" x=\"48\" y=\"414\">8</text></g>\n\
    <g><title>send s 2 body a 1@A &quot;&lt;&amp;&gt;&quot;</title><line class=\"body lost\" x1=\"76\" y1=\"436\" x2=\"176\" y2=\"444\"/><use href=\"#cross\" x=\"176\" y=\"444\"/><text class=\"words\" x=\"90\" y=\"432\">s 2 body a 1@A</text><text class=\"number\" x=\"48\" y=\"440\">9</text></g>\n\
    <g><title>delete c a 2@A over 1@A after A:1</title><use href=\"#delete\" x=\"76\" y=\"462\"/><text class=\"words\" x=\"90\" y=\"466\">delete c a 2@A</text><text class=\"number\" x=\"48\" y=\"466\">10</text></g>\n\
    <g><title>send s 3 gone a 2@A over 1@A from A:1 to A:2</title><line class=\"precise lost\" x1=\"76\" y1=\"488\" x2=\"296\" y2=\"514\"/><text class=\"words\" x=\"90\" y=\"484\">s 3 gone a 2@A</text><text class=\"number\" x=\"48\" y=\"492\">11</text></g>\n\
    <g><title>gap s 3 needs A:1 has -</title><use href=\"#cross\" x=\"296\" y=\"514\"/><text class=\"warning\" x=\"310\" y=\"518\">gap s 3 needs A:1 has -</text><text class=\"number\" x=\"48\" y=\"518\">12</text></g>\n\
    <g><title>accept s 1 at A:1</title><use href=\"#accept\" x=\"296\" y=\"540\"/><text class=\"words\" x=\"310\" y=\"544\">accept s 1 at A:1</text><text class=\"number\" x=\"48\" y=\"544\">13</text></g>\n\
    <g><title>read d a body 1@A at A:1</title><use href=\"#pending\" x=\"296\" y=\"566\"/><text class=\"warning\" x=\"310\" y=\"570\">read d a body 1@A</text><text class=\"number\" x=\"48\" y=\"570\">14</text></g>\n\
    <g><title>ok 14</title><line class=\"end near\" x1=\"76\" y1=\"584\" x2=\"696\" y2=\"584\"/><text class=\"words\" x=\"90\" y=\"599\">ok 14</text><text class=\"number\" x=\"48\" y=\"596\">15</text></g>\n\
    </svg>\n";

const BAD: &[u8] = b"node A *\nnode A *\nok 2\n";

// How the source and the sink behave: the bytes of a call, and the calls that fail.
#[derive(Clone, Copy)]
struct Ports<'a> {
    source: (usize, &'a [u64]),
    sink: (usize, &'a [u64]),
}

const SOUND: Ports<'static> = Ports {
    source: (4096, &[]),
    sink: (65536, &[]),
};

// What a call answers, as an exit status, and what its sink took.
fn called(alloc: Global, words: usize, text: &[u8], ports: &Ports) -> Result<(u8, Vec<u8>), Fail> {
    let fail = Vec::from_slice(alloc, ports.source.1)?;
    let bytes = Vec::from_slice(alloc, text)?;
    let mut source = MemorySource::new(bytes, ports.source.0.max(1), fail);
    let fail = Vec::from_slice(alloc, ports.sink.1)?;
    let mut sink = MemorySink::new(alloc, 65536, ports.sink.0.max(1), fail)
        .ok()
        .ok_or("no memory")?;
    let status = draw(alloc, words, &mut source, &mut sink);
    Ok((status.number(), Vec::from_slice(alloc, sink.bytes())?))
}

#[test]
fn a_transcript_has_a_picture(rt: HostRuntime) -> Result<(), Fail> {
    let (status, picture) = called(rt.alloc(), 0, SMALL, &SOUND)?;
    assert_eq!(rt; status, 0);
    assert!(rt;
        picture
            .as_slice()
            .starts_with(b"<svg xmlns=\"http://www.w3.org/2000/svg\" width=\"720\"")
    );
    assert!(rt; picture.as_slice().ends_with(GROUPS));
    Ok(())
}

#[test]
fn other_texts_have_their_line(rt: HostRuntime) -> Result<(), Fail> {
    let alloc = rt.alloc();
    let short = &SMALL[..SMALL.len() - 1];
    let table: [(usize, &[u8], u8, &[u8]); 4] = [
        (0, BAD, 10, b"no 2 why 1\n"),
        (0, b"", 10, b"no 1 why 4\n"),
        (0, short, 10, b"no 15 why 4\n"),
        (1, SMALL, 1, b"error usage\n"),
    ];
    for (words, text, status, line) in &table {
        let (number, told) = called(alloc, *words, text, &SOUND)?;
        assert!(rt; number == *status && told.as_slice() == *line);
    }
    Ok(())
}

#[test]
fn ports_that_fail(rt: HostRuntime) -> Result<(), Fail> {
    let alloc = rt.alloc();
    let source = Ports {
        source: (10, &[3]),
        sink: (4096, &[]),
    };
    let (status, told) = called(alloc, 0, SMALL, &source)?;
    assert!(rt; status == 3 && told.as_slice() == b"error read\n".as_slice());
    let sink = Ports {
        source: (10, &[]),
        sink: (100, &[3]),
    };
    let (_, picture) = called(alloc, 0, SMALL, &SOUND)?;
    let (status, told) = called(alloc, 0, SMALL, &sink)?;
    assert!(rt; status == 4 && told.len() == 200);
    assert!(rt; picture.as_slice().starts_with(told.as_slice()));
    Ok(())
}
