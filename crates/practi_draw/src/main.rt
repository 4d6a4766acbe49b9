// Reads a transcript from standard input, and writes its picture to standard output.
#![tactic(auto)]

use pr_draw::draw;
use pr_ports::{ReaderSource, WriterSink};
use pr_top::{Status, tell};
use std::env;
use std::io::{self, ErrorKind};
use std::process::ExitCode;

fn main(rt: HostRuntime) -> ExitCode {
    let mut text = ReaderSource::new(rt.reader());
    let mut out = WriterSink::new(io::writer(&rt));
    let status = match env::args(&rt) {
        Ok(words) => draw(rt.alloc(), words.skip(1).count(), &mut text, &mut out),
        Err(error) if error.kind() == ErrorKind::OutOfMemory => {
            tell(&mut out, Status::NoMemory, b"error no memory\n")
        }
        Err(_) => tell(&mut out, Status::Usage, b"error usage\n"),
    };
    ExitCode::from(status.number())
}
