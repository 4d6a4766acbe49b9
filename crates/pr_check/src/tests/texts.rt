// Texts, given to a judge in two pieces.
use crate::{Judgement, TextJudge};
use pr_stamps::Seq;
use std::alloc::Global;
use std::test::Fail;

const FIRST: &[u8] = b"node A *\nnode B *\nclient c A\nclient d B\nstream s A B *\n\
    attach s at -\nwrite c a/x \"hi\" 1@A over - after -\n\
    send s 1 precise a/x 1@A over - from - to A:1\naccept s 1 at A:1\n\
    read c a/x value 1@A \"hi\" at A:1\nread d a/x body 1@A at A:1\nidle s\nok 12\n";

const CHANGED: &[u8] = b"node A *\nnode B *\nclient c A\nclient d B\nstream s A B *\n\
    attach s at -\nwrite c a/x \"hi\" 1@A over - after -\n\
    send s 1 precise a/x 1@A over - from - to A:1\naccept s 1 at A:1\n\
    read c a/x never at A:1\nread d a/x body 1@A at A:1\nidle s\nok 12\n";

const BEHIND: &[u8] = b"node A *\nok 1\nok 1\n";

const UNENDED: &[u8] = b"node A *\nok 1\nok 1";

fn judgement(alloc: Global, text: &[u8], at: usize) -> Option<Judgement> {
    let (front, rest) = text.split_at(at.min(text.len()));
    let mut judge = TextJudge::new(alloc);
    judge.push(front).ok()?;
    judge.push(rest).ok()?;
    Some(judge.finish().ok()?.judgement())
}

#[test]
fn a_transcript_is_one_in_any_pieces(rt: HostRuntime) -> Result<(), Fail> {
    for at in 0..FIRST.len() {
        assert!(rt; judgement(rt.alloc(), FIRST, at) == Some(Judgement::Yes { lines: 12 }));
    }
    Ok(())
}

#[test]
fn other_texts_have_a_first_bad_line(rt: HostRuntime) -> Result<(), Fail> {
    let table: [(&[u8], u64, u8); 7] = [
        (b"", 1, 4),
        (&FIRST[..FIRST.len() - 6], 13, 4),
        (&FIRST[..FIRST.len() - 1], 13, 4),
        (CHANGED, 10, 3),
        (b"node A *\nnode A *\nok 2\n", 2, 1),
        (BEHIND, 3, 4),
        (UNENDED, 3, 4),
    ];
    for (text, line, why) in &table {
        assert!(rt;
            judgement(rt.alloc(), text, 3)
                == Some(Judgement::No {
                    line: *line,
                    why: *why
                })
        );
    }
    Ok(())
}

fn written(alloc: Global, judgement: &Judgement, line: &[u8]) -> bool {
    let mut text = Seq::new(alloc);
    judgement.write(&mut text).is_ok() && text.as_slice() == line
}

#[test]
fn lines_of_judgements(rt: HostRuntime) -> Result<(), Fail> {
    assert!(rt; written(rt.alloc(), &Judgement::Yes { lines: 12 }, b"yes 12\n"));
    assert!(rt;
        written(
            rt.alloc(),
            &Judgement::No { line: 25, why: 3 },
            b"no 25 why 3\n"
        )
    );
    Ok(())
}
