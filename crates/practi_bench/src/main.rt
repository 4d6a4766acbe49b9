// Makes one or two nodes, calls them as the words say, and prints how many entries their journals have.
#![tactic(auto)]

mod ask;
mod calls;
mod coding;
mod failed;
mod forging;
mod known;
mod measuring;
mod naming;
mod pair;
mod rounds;
mod source;
mod starting;
mod streams;
mod work;
mod writers;

use ask::Ask;
use measuring::entries;
use std::env;
use std::process::ExitCode;

const USAGE: u8 = 2;

const FAILED: u8 = 3;

fn main(rt: HostRuntime) -> ExitCode {
    ExitCode::from(status(&rt))
}

fn status(rt: &HostRuntime) -> u8 {
    let Some(ask) = asked(rt) else {
        let _ = eprintln!(rt; "usage: practi_bench KIND SIZE NAMES WRITERS");
        return USAGE;
    };
    let Ok(count) = entries(rt.alloc(), &ask) else {
        return FAILED;
    };
    match println!(rt; "{count}") {
        Ok(()) => 0,
        Err(_) => FAILED,
    }
}

fn asked(rt: &HostRuntime) -> Option<Ask> {
    let words: Vec<String> = env::args(rt).ok()?.skip(1).collect(rt.alloc()).ok()?;
    Ask::of(&words)
}
