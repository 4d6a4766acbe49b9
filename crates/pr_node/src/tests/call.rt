// What nodes are asked, as plain data.

use pr_story::Cause;

/// The clocks of A, B and C in a vector.
pub type Clocks = [u64; 3];

/// A stamp: its clock and its node.
pub type At = (u64, u32);

/// A message that nobody sent. Its numbers need not fit what any node did.
#[derive(Clone, Copy)]
pub enum Forgery<'a> {
    /// Name, stamp, what it is over, from and to.
    Precise(&'a [u8], At, Option<At>, Clocks, Clocks),
    /// Target, from and to.
    Imprecise(&'a [u8], Clocks, Clocks),
    /// Name, stamp and bytes.
    Body(&'a [u8], At, &'a [u8]),
}

/// A call of a node. Clients, nodes and streams are told by their numbers.
#[derive(Clone, Copy)]
pub enum Call<'a> {
    /// Client, node, name and bytes.
    Write(u32, u32, &'a [u8], &'a [u8]),
    /// Client, node and name.
    Delete(u32, u32, &'a [u8]),
    /// Client, node and name.
    Read(u32, u32, &'a [u8]),
    /// Client and node.
    Move(u32, u32),
    Attach(u32),
    Turn(u32),
    Checkpoint(u32),
    /// Node, stream and number. The node may be another than the stream's destination.
    Accept(u32, u32, u64),
    /// Node, time and message.
    Forged(u32, u64, Forgery<'a>),
    /// Stream and number.
    Missing(u32, u64),
    Down(u32, Cause),
    Cut(u32),
    /// Node and name.
    Drop(u32, &'a [u8]),
    /// Node and name.
    Conflicts(u32, &'a [u8]),
    State(u32),
}
