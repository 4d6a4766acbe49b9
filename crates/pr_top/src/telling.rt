// Last lines.
ghost use Rattle.pr_ports.specs.Faults.{HasRisen};
ghost use Rattle.pr_text.specs.Endings.{bad_cause, error_line, lied_cause};
ghost use Rattle.pr_top.specs.Runs.{WritesLine};
ghost use Rattle.std.specs.Prelude.{◌≡◌, ◌≤◌, ◌⊎◌, codes};

use crate::Status;
use crate::writing::write_all;
use pr_ports::Sink;
use pr_script::{Bytes, Decls};
use pr_stamps::Seq;
use pr_text::{bad, lied};
use std::alloc::Global;

/// Writes the last line of a call that ends with this status. A sink that fails is given up, and the status stays.
pub fn tell<K: Sink>(out: &mut K, status: Status, line: &[u8]) -> Status
    ensures status { result ≡ status }
    ensures line { WritesLine (HasRisen (K.faults out.old) (K.faults out.new)) line.now (K.text out.old) (K.text out.new) }
    ensures rises { K.faults out.old ≤ K.faults out.new }
{
    let _ = write_all(out, line);
    status
}

/// Writes the line that tells a script's first bad line.
pub fn tell_bad<K: Sink>(alloc: Global, out: &mut K, line: u64, why: u8) -> Status
    ensures status { (result ≡ Status.BadScript line why) ⊎ (result ≡ Status.NoMemory) }
    ensures line { result ≡ Status.BadScript line why → WritesLine (HasRisen (K.faults out.old) (K.faults out.new)) (error_line (bad_cause line why)) (K.text out.old) (K.text out.new) }
    ensures no_memory { result ≡ Status.NoMemory → WritesLine (HasRisen (K.faults out.old) (K.faults out.new)) (error_line (codes "no memory")) (K.text out.old) (K.text out.new) }
    ensures rises { K.faults out.old ≤ K.faults out.new }
{
    let mut text = Seq::new(alloc);
    match bad(line, why, &mut text) {
        Ok(()) => tell(out, Status::BadScript { line, why }, text.as_slice()),
        Err(_) => no_memory(out),
    }
}

/// Writes the line that tells that there is no memory.
pub fn no_memory<K: Sink>(out: &mut K) -> Status
    ensures status { result ≡ Status.NoMemory }
    ensures line { WritesLine (HasRisen (K.faults out.old) (K.faults out.new)) (error_line (codes "no memory")) (K.text out.old) (K.text out.new) }
    ensures rises { K.faults out.old ≤ K.faults out.new }
{
    tell(out, Status::NoMemory, b"error no memory\n")
}

/// Writes the line that tells a lie. Its cost is linear in the bytes of the message.
pub fn tell_lie<K: Sink>(
    alloc: Global,
    decls: &Decls,
    stream: u32,
    number: u64,
    sent: Bytes,
    got: Bytes,
    out: &mut K,
) -> Status
    ensures status { (result ≡ Status.Lied stream number sent got) ⊎ (result ≡ Status.NoMemory) }
    ensures line { result ≡ Status.Lied stream number sent got → WritesLine (HasRisen (K.faults out.old) (K.faults out.new)) (error_line (lied_cause decls.now.list stream number sent got)) (K.text out.old) (K.text out.new) }
    ensures no_memory { result ≡ Status.NoMemory → WritesLine (HasRisen (K.faults out.old) (K.faults out.new)) (error_line (codes "no memory")) (K.text out.old) (K.text out.new) }
    ensures rises { K.faults out.old ≤ K.faults out.new }
{
    let mut text = Seq::new(alloc);
    match lied(
        decls,
        stream,
        number,
        sent.as_slice(),
        got.as_slice(),
        &mut text,
    ) {
        Ok(()) => {
            let status = Status::Lied {
                stream,
                number,
                sent,
                got,
            };
            tell(out, status, text.as_slice())
        }
        Err(_) => no_memory(out),
    }
}
