// Lines that begin a transcript, and those that end one.
use super::{HEADS, decls};
use crate::{bad, error, heads, lied, ok, unmet};
use pr_script::{Bytes, Decls};
use pr_stamps::Seq;
use std::alloc::Global;

fn are_heads_told(alloc: Global) -> Option<bool> {
    let decls = decls(alloc)?;
    let mut out = Seq::new(alloc);
    heads(alloc, &decls, &mut out).ok()?;
    Some(out.as_slice() == HEADS)
}

#[test]
fn head_lines(rt: HostRuntime) {
    assert!(rt; are_heads_told(rt.alloc()).unwrap_or(false));
}

fn endings(alloc: Global, decls: &Decls) -> Option<Bytes> {
    let mut out = Seq::new(alloc);
    ok(42, &mut out).ok()?;
    unmet(7, &mut out).ok()?;
    bad(3, 12, &mut out).ok()?;
    error(b"too large", &mut out).ok()?;
    lied(decls, 1, 2, b"\x02\xff", b"\x00", &mut out).ok()?;
    Some(out)
}

const ENDINGS: &[u8] = b"\
ok 42\n\
unmet 7\n\
error line 3 why 12\n\
error too large\n\
error lied t 2 sent 02ff got 00\n\
";

fn are_endings_told(alloc: Global) -> Option<bool> {
    let decls = decls(alloc)?;
    Some(endings(alloc, &decls)?.as_slice() == ENDINGS)
}

#[test]
fn last_lines(rt: HostRuntime) {
    assert!(rt; are_endings_told(rt.alloc()).unwrap_or(false));
}
