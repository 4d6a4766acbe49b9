use crate::{Job, WordsFault, read};
use std::alloc::Global;
use std::test::Fail;

fn words(alloc: Global, list: &[&str]) -> Result<Vec<String>, Fail> {
    let mut words = Vec::new(alloc);
    for word in list {
        words.push(String::from_str(alloc, word)?)?;
    }
    Ok(words)
}

// The job's number in the order of its kinds, with its numbers or the length of its label; none for Usage.
fn job(alloc: Global, list: &[&str]) -> Result<Option<(u8, u64, u64)>, Fail> {
    let words = words(alloc, list)?;
    match read(alloc, &words) {
        Ok(job) => Ok(Some(shown(&job))),
        Err(WordsFault::Usage) => Ok(None),
        Err(WordsFault::NoMemory) => Err(Fail::from("no memory")),
    }
}

fn shown(job: &Job) -> (u8, u64, u64) {
    match job {
        Job::Sim => (0, 0, 0),
        Job::Run => (1, 0, 0),
        Job::Gen { seed, size } => (2, *seed, *size),
        Job::Check => (3, 0, 0),
        Job::Kept { stop: None } => (4, 0, 0),
        Job::Kept { stop: Some(stop) } => (4, *stop, 0),
        Job::Ask { node } => (5, node.len() as u64, 0),
        Job::Serve { node } => (6, node.len() as u64, 0),
        Job::Pull { node } => (7, node.len() as u64, 0),
    }
}

#[test]
fn these_words_are_accepted(rt: HostRuntime) -> Result<(), Fail> {
    let cases: [(&[&str], (u8, u64, u64)); 22] = [
        (&["sim"], (0, 0, 0)),
        (&["--", "sim"], (0, 0, 0)),
        (&["sim", "--"], (0, 0, 0)),
        (&["run"], (1, 0, 0)),
        (&["--", "run"], (1, 0, 0)),
        (&["--seed=7", "gen", "--size", "5"], (2, 7, 5)),
        (&["gen", "--size=5", "--seed=7"], (2, 7, 5)),
        (&["--seed", "7", "--size", "5", "--", "gen"], (2, 7, 5)),
        (&["gen", "--seed", "7", "--size", "5", "--"], (2, 7, 5)),
        (
            &["gen", "--seed", "18446744073709551615", "--size", "90000"],
            (2, 18446744073709551615, 90000),
        ),
        (&["gen", "--seed", "0", "--size", "1"], (2, 0, 1)),
        (&["check"], (3, 0, 0)),
        (&["kept"], (4, 0, 0)),
        (&["kept", "--stop", "2"], (4, 2, 0)),
        (&["--stop", "1000000000", "kept"], (4, 1000000000, 0)),
        (&["kept", "--stop=2", "--"], (4, 2, 0)),
        (&["ask", "--node", "B"], (5, 1, 0)),
        (&["serve", "--node=A"], (6, 1, 0)),
        (&["serve", "--node=A1"], (6, 2, 0)),
        (&["ask", "--node", "ABCDEFGHIJKLMNOP"], (5, 16, 0)),
        (&["--node", "A", "pull"], (7, 1, 0)),
        (&["--node=A", "--", "pull"], (7, 1, 0)),
    ];
    for (list, want) in cases {
        assert_eq!(rt; job(rt.alloc(), list)?, Some(want));
    }
    Ok(())
}

// Whether the words ask for no job.
fn is_usage(alloc: Global, list: &[&str]) -> Result<bool, Fail> {
    Ok(job(alloc, list)?.is_none())
}

#[test]
fn modes_without_what_they_take_are_usage(rt: HostRuntime) -> Result<(), Fail> {
    let cases: [&[&str]; 20] = [
        &[],
        &["sim", "x"],
        &["gen"],
        &["gen", "--seed", "7"],
        &["--seed", "7"],
        &["sim", "--seed", "7"],
        &["check", "x"],
        &["check", "--stop", "2"],
        &["kept", "--node", "A"],
        &["kept", "--stop"],
        &["ask"],
        &["ask", "--node="],
        &["ask", "--node", "A", "--stop", "2"],
        &["gen", "--seed", "7", "--size", "5", "--node", "A"],
        &["gen", "--seed", "7", "--size", "5", "--stop", "2"],
        &["help"],
        &["GEN"],
        &[""],
        &["sim", ""],
        &["été"],
    ];
    for list in cases {
        assert!(rt; is_usage(rt.alloc(), list)?);
    }
    Ok(())
}

#[test]
fn other_numbers_and_labels_are_usage(rt: HostRuntime) -> Result<(), Fail> {
    let cases: [&[&str]; 16] = [
        &["gen", "--seed", "07", "--size", "5"],
        &["gen", "--seed=07", "--size", "5"],
        &["gen", "--seed", "7", "--size", "0"],
        &["gen", "--seed", "18446744073709551616", "--size", "5"],
        &["gen", "--seed", "7", "--size", "90001"],
        &["gen", "--seed", "+7", "--size", "5"],
        &["gen", "--seed", "-7", "--size", "5"],
        &["gen", "--seed", "-", "--size", "5"],
        &["gen", "--seed==7", "--size", "5"],
        &["gen", "--seed", "é", "--size", "5"],
        &["gen", "--seed=", "--size", "5"],
        &["gen", "--seed", "", "--size", "5"],
        &["kept", "--stop=1"],
        &["kept", "--stop", "1000000001"],
        &["pull", "--node", "A!"],
        &["ask", "--node", "ABCDEFGHIJKLMNOPQ"],
    ];
    for list in cases {
        assert!(rt; is_usage(rt.alloc(), list)?);
    }
    Ok(())
}

#[test]
fn other_options_are_usage(rt: HostRuntime) -> Result<(), Fail> {
    let cases: [&[&str]; 20] = [
        &["--help"],
        &["-h"],
        &["--version"],
        &["-V"],
        &["help", "sim"],
        &["--see", "7", "gen", "--size", "5"],
        &["--séed", "7", "gen", "--size", "5"],
        &["--=x", "sim"],
        &["-é", "sim"],
        &["-", "sim"],
        &["gen", "--seed", "7", "--seed", "8", "--size", "5"],
        &["gen", "--seed", "7", "--seed=7", "--size", "5"],
        &["kept", "--stop", "2", "--stop", "3"],
        &["gen", "--size", "5", "--seed"],
        &["gen", "--seed", "--size", "5"],
        &["gen", "--size", "5", "--seed", "--"],
        &["ask", "--node", "--seed=7"],
        &["sim", "run"],
        &["sim", "sim"],
        &["-sim"],
    ];
    for list in cases {
        assert!(rt; is_usage(rt.alloc(), list)?);
    }
    Ok(())
}

#[test]
fn other_dashes_are_usage(rt: HostRuntime) -> Result<(), Fail> {
    let cases: [&[&str]; 9] = [
        &["--"],
        &["--", "sim", "--"],
        &["sim", "--", "--"],
        &["--", "--", "sim"],
        &["--", "gen", "--seed", "7", "--size", "5"],
        &["gen", "--", "--seed", "7", "--size", "5"],
        &["--seed", "7", "--", "gen", "--size=5"],
        &["gen", "--seed", "--", "7", "--size", "5"],
        &["--", "-sim"],
    ];
    for list in cases {
        assert!(rt; is_usage(rt.alloc(), list)?);
    }
    Ok(())
}
