// The bytes that are written.
ghost use Rattle.std.specs.Prelude.{◌≡◌, ◌≤◌, ℕ, take, OnOk, OnErr};
ghost use Rattle.std.specs.Io.KnownBytes.{Appends};
ghost use Rattle.pr_ports.specs.Faults.{HasRisen};

use pr_ports::{Failed, Sink};

/// Writes all the bytes, by as many calls as the sink asks for. Where the sink fails, it has taken their front.
pub fn write_all<K: Sink>(out: &mut K, bytes: &[u8]) -> Result<(), Failed>
    ensures ok { OnOk result (Appends (K.text out.old) (K.text out.new) bytes.now) }
    ensures prefix { OnErr result ((n : ℕ) × Appends (K.text out.old) (K.text out.new) (take n bytes.now)) }
    ensures rises { K.faults out.old ≤ K.faults out.new }
    ensures failed { OnErr result (HasRisen (K.faults out.old) (K.faults out.new)) }
{
    let mut at = 0;
    while at < bytes.len() {
        let n = out.write(&bytes[at..])?;
        if n == 0 {
            return Err(Failed);
        }
        at += n;
    }
    Ok(())
}
