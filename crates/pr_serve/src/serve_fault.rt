// Why no more is served or pulled.
ghost use Rattle.pr_serve.specs.Faults.{fault_for};
ghost use Rattle.std.specs.Prelude.{◌≡◌};

use pr_inval::NodeFault;

/// At this byte no spelling stands, or the input ends within one; the source or the sink failed; more than `MOST_BYTES`
/// bytes came; the next event's time would be past the greatest, which is named; or there was no memory.
#[derive(Clone, Copy, Debug, PartialEq, Eq)]
pub enum ServeFault {
    BadBytes { at: u64 },
    ReadFault,
    WriteFault,
    TooLarge,
    Worn { at: u64 },
    NoMemory,
}

impl From<NodeFault> for ServeFault {
    ghost from_gives = { λ fault answer. answer ≡ fault_for fault };

    fn from(fault: NodeFault) -> ServeFault {
        match fault {
            NodeFault::Worn { at } => ServeFault::Worn { at },
            NodeFault::NoMemory => ServeFault::NoMemory,
        }
    }
}
