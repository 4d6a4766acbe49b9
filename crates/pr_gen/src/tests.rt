use crate::script;
use pr_script::{print, read};
use pr_stamps::{Bytes, Seq};
use std::alloc::Global;
use std::test::Fail;

// The lines before the steps.
const FRONT: &[u8] = b"\
node N0 a/* b/*\n\
node N1 b/* c/*\n\
node N2 c/* d/*\n\
node N3 d/* e/*\n\
node N4 e/* f/*\n\
node N5 f/* g/*\n\
node N6 g/* h/*\n\
node N7 h/* a/*\n\
client C0 N0\n\
client C1 N1\n\
client C2 N2\n\
client C3 N3\n\
client C4 N4\n\
client C5 N5\n\
client C6 N6\n\
client C7 N7\n\
stream S0 N0 N1 b/*,c/* bodies\n\
stream S1 N1 N2 c/*,d/* bodies\n\
stream S2 N2 N3 d/*,e/* bodies\n\
stream S3 N3 N4 e/*,f/* bodies\n\
stream S4 N4 N5 f/*,g/* bodies\n\
stream S5 N5 N6 g/*,h/* bodies\n\
stream S6 N6 N7 a/*,h/* bodies\n\
stream S7 N7 N0 a/*,b/* bodies\n\
stream T0 N1 N0 *\n\
stream T1 N2 N1 *\n\
stream T2 N3 N2 *\n\
stream T3 N4 N3 *\n\
stream T4 N5 N4 *\n\
stream T5 N6 N5 *\n\
stream T6 N7 N6 *\n\
stream T7 N0 N7 *\n\
attach S0\n\
attach S1\n\
attach S2\n\
attach S3\n\
attach S4\n\
attach S5\n\
attach S6\n\
attach S7\n\
attach T0\n\
attach T1\n\
attach T2\n\
attach T3\n\
attach T4\n\
attach T5\n\
attach T6\n\
attach T7\n\
";

const ONE: &[u8] = b"write C6 b/34 \"4177522235\"\nsettle\n";

const EIGHT: &[u8] = b"\
write C6 b/34 \"4177522235\"\n\
write C0 a/36 \"221168536\"\n\
flow S4 4\n\
write C5 e/42 \"1026741763\"\n\
write C5 a/43 \"2589660759\"\n\
flow T7 4\n\
write C1 h/33 \"3768611835\"\n\
write C2 h/46 \"920910285\"\n\
settle\n\
";

const SIX: &[u8] = b"\
flow T6 2\n\
write C4 f/18 \"3804052768\"\n\
write C0 e/36 \"4058641856\"\n\
write C2 f/0 \"1247874432\"\n\
write C6 a/7 \"2911896759\"\n\
read C1 g/49\n\
settle\n\
";

const GREATEST: &[u8] = b"\
flow S6 1\n\
write C2 a/39 \"975353581\"\n\
write C0 h/17 \"417460276\"\n\
settle\n\
";

// The script's text.
fn printed(alloc: Global, seed: u64, size: u64) -> Result<Bytes, Fail> {
    if size > 90000 {
        return Err(Fail::from("too large"));
    }
    let script = script(alloc, seed, size).ok().ok_or("no memory")?;
    let mut text = Seq::new(alloc);
    print(&script, &mut text).ok().ok_or("no memory")?;
    Ok(text)
}

// Whether these are the lines behind those in front.
fn ends_so(alloc: Global, seed: u64, size: u64, lines: &[u8]) -> Result<bool, Fail> {
    let mut want = Seq::copied(alloc, FRONT).ok().ok_or("no memory")?;
    want.extend(lines).ok().ok_or("no memory")?;
    let text = printed(alloc, seed, size)?;
    Ok(text.as_slice() == want.as_slice())
}

#[test]
fn small_workloads_as_they_stand(rt: HostRuntime) -> Result<(), Fail> {
    let cases: [(u64, u64, &[u8]); 4] = [
        (1, 1, ONE),
        (1, 8, EIGHT),
        (7, 6, SIX),
        (u64::MAX, 3, GREATEST),
    ];
    for (seed, size, lines) in cases {
        assert!(rt; ends_so(rt.alloc(), seed, size, lines)?, "seed {seed}");
    }
    Ok(())
}

#[test]
fn a_seed_and_a_size_have_one_script(rt: HostRuntime) -> Result<(), Fail> {
    let once = printed(rt.alloc(), 7, 100)?;
    let twice = printed(rt.alloc(), 7, 100)?;
    assert_eq!(rt; once.as_slice(), twice.as_slice());
    let other = printed(rt.alloc(), 8, 100)?;
    assert!(rt; once.as_slice() != other.as_slice());
    Ok(())
}

#[test]
fn what_is_printed_is_a_script(rt: HostRuntime) -> Result<(), Fail> {
    for seed in 0..20 {
        let text = printed(rt.alloc(), seed, 50)?;
        assert!(rt; read(rt.alloc(), text.as_slice()).is_ok(), "seed {seed}");
    }
    Ok(())
}
