// Asks of a worked script.
use super::{SOUND, called};
use std::test::Fail;

const SCRIPT: &[u8] = b"node A *\nnode B *\nclient c A\nstream s A B *\nwrite c a/x \"hi\"\n";

const ASK: &[u8] = &[
    0x51, 0, 0, 0, 0, 0, 0, 0, 0, 0, 0, 0, 0, 1, 0x01, 0x2d, 0x00, 0x00, 0, 0, 0, 0, 0, 0x0f, 0x42,
    0x40,
];

#[test]
fn asks_of_a_node(rt: HostRuntime) -> Result<(), Fail> {
    let to_b = called(&rt, rt.alloc(), &["ask", "--node", "B"], SCRIPT, &SOUND)?;
    assert!(rt; to_b.0 == 0 && to_b.1.as_slice() == ASK);
    let to_a = called(&rt, rt.alloc(), &["--node=A", "ask"], SCRIPT, &SOUND)?;
    assert!(rt; to_a.0 == 0 && to_a.1.is_empty());
    Ok(())
}

#[test]
fn asks_that_are_refused(rt: HostRuntime) -> Result<(), Fail> {
    let nobody = called(&rt, rt.alloc(), &["ask", "--node", "C"], SCRIPT, &SOUND)?;
    assert!(rt; nobody.0 == 12 && nobody.1.is_empty());
    let bad = called(
        &rt,
        rt.alloc(),
        &["ask", "--node", "C"],
        b"node A\0\n",
        &SOUND,
    )?;
    assert!(rt; bad.0 == 2 && bad.1.is_empty());
    Ok(())
}
