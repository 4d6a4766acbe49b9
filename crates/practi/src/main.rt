// Does what its words ask for, from standard input to standard output.
#![tactic(auto)]

ghost use Rattle.std.specs.Prelude.{◌≡◌, ◌⊎◌, IfErr};

use pr_crew::FreeGate;
use pr_ports::{ReaderSource, WriterSink};
use pr_top::{Status, practi, tell};
use pr_wires::LoopWires;
use std::alloc::AllocError;
use std::env;
use std::io::{self, BufWriter, ErrorKind, Write};
use std::process::ExitCode;

// How many bytes are gathered before they are written.
const BUFFER: usize = 65_536;

fn main(rt: HostRuntime) -> ExitCode {
    let Ok(mut buffer) = BufWriter::with_capacity(rt.alloc(), BUFFER, io::writer(&rt)) else {
        return refused(&rt);
    };
    let mut script = ReaderSource::new(rt.reader());
    let mut wires = LoopWires::new(&rt);
    let mut out = WriterSink::new(&mut buffer);
    let status = match words(&rt) {
        Ok(words) => practi(
            &rt,
            rt.alloc(),
            &words,
            &mut script,
            &mut out,
            &mut wires,
            &FreeGate,
        ),
        Err(Status::NoMemory) => tell(&mut out, Status::NoMemory, b"error no memory\n"),
        Err(status) => tell(&mut out, status, b"error usage\n"),
    };
    drop(out);
    ExitCode::from(flushed(status, &mut buffer).number())
}

// Tells that there is no memory to gather bytes in.
fn refused(rt: &HostRuntime) -> ExitCode {
    let mut out = WriterSink::new(io::writer(rt));
    ExitCode::from(tell(&mut out, Status::NoMemory, b"error no memory\n").number())
}

// Writes what was gathered. A call that did all is no success where that fails.
fn flushed<W: Write>(status: Status, to: &mut W) -> Status
    ensures { (result ≡ status) ⊎ ((status ≡ Status.Ok) × (result ≡ Status.WriteFault)) }
{
    match (to.flush(), status) {
        (Err(_), Status::Ok) => Status::WriteFault,
        (_, status) => status,
    }
}

// The words behind the program's own name. Words that are no text are not accepted.
fn words(rt: &HostRuntime) -> Result<Vec<String>, Status>
    ensures { IfErr result (λ status. (status ≡ Status.NoMemory) ⊎ (status ≡ Status.Usage)) }
{
    match env::args(rt) {
        Ok(words) => words.skip(1).collect(rt.alloc()).map_err(no_memory),
        Err(error) if error.kind() == ErrorKind::OutOfMemory => Err(Status::NoMemory),
        Err(_) => Err(Status::Usage),
    }
}

fn no_memory(_error: AllocError) -> Status
    ensures { result ≡ Status.NoMemory }
{
    Status::NoMemory
}
