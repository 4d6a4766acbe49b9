use crate::{Owner, owners, phase_len, read};
use std::alloc::Global;
use std::test::Fail;

const LINES: &[u8] = b"node A\nnode B\nclient c A\nclient d B\nstream s A B *\nattach s\n\
read d a\nphase\nread d a\nflow s 2\nwrite c a \"x\"\nread d b\nend\nphase\nend\n";

// The number of an owner, and whether it is a stream.
fn shown(owner: Owner) -> (u32, bool) {
    match owner {
        Owner::Client(client) => (client, false),
        Owner::Stream(stream) => (stream, true),
    }
}

// How many lines stand before the first `end` from this place on.
fn len(alloc: Global, at: usize) -> usize {
    match read(alloc, LINES) {
        Ok(script) => match script.commands.as_slice().get(at..) {
            Some(behind) => phase_len(behind),
            None => 0,
        },
        Err(_) => 0,
    }
}

// Which is the job at this place of the first phase.
fn job(alloc: Global, at: usize) -> Option<(u32, bool)> {
    let script = read(alloc, LINES).ok()?;
    let inside = script.commands.as_slice().get(3..7)?;
    let jobs = owners(alloc, inside).ok()?;
    Some(shown(*jobs.as_slice().get(at)?))
}

#[test]
fn jobs_stand_once_by_their_first_lines(rt: HostRuntime) {
    let cases: [(usize, Option<(u32, bool)>); 4] = [
        (0, Some((1, false))),
        (1, Some((0, true))),
        (2, Some((0, false))),
        (3, None),
    ];
    for (at, owner) in cases {
        assert_eq!(rt; job(rt.alloc(), at), owner);
    }
}

#[test]
fn a_phase_goes_up_to_its_end(rt: HostRuntime) {
    let cases: [(usize, usize); 3] = [(3, 4), (9, 0), (10, 0)];
    for (at, count) in cases {
        assert_eq!(rt; len(rt.alloc(), at), count);
    }
}
