// A few fields' bytes.
ghost use Rattle.pr_wire.specs.Spelling.{eight, four};
ghost use Rattle.std.specs.Prelude.{◌≡◌, ◌≤◌, ◌+◌, [], ◌∷◌, ◌++◌, length};

use arrayvec::ArrayVec;

/// Room for what is written at once: the fields of a precise message, which have at most 684 bytes, behind the frame's
/// head of 9; or the first fields of another, with a short target or body.
pub type Chunk = ArrayVec<u8, 704>;

pub fn put_byte(chunk: &mut Chunk, byte: u8)
    requires { length chunk.old.items + 1 ≤ 704 }
    ensures text { chunk.new.items ≡ chunk.old.items ++ byte ∷ [] }
    ensures size { length chunk.new.items ≡ length chunk.old.items + 1 }
{
    chunk.push(byte);
}

pub fn put(chunk: &mut Chunk, bytes: &[u8])
    requires { length chunk.old.items + length bytes.now ≤ 704 }
    ensures text { chunk.new.items ≡ chunk.old.items ++ bytes.now }
    ensures size { length chunk.new.items ≡ length chunk.old.items + length bytes.now }
{
    let _ = chunk.try_extend_from_slice(bytes);
}

/// A number in 8 bytes, the highest first.
#[tactic(auto, unfolding(crate::specs::Spelling::eight))]
pub fn put_eight(chunk: &mut Chunk, number: u64)
    requires { length chunk.old.items + 8 ≤ 704 }
    ensures text { chunk.new.items ≡ chunk.old.items ++ eight number }
    ensures size { length chunk.new.items ≡ length chunk.old.items + 8 }
{
    put(chunk, &number.to_be_bytes());
}

/// A number in 4 bytes, the highest first.
#[tactic(auto, unfolding(crate::specs::Spelling::four))]
pub fn put_four(chunk: &mut Chunk, number: u32)
    requires { length chunk.old.items + 4 ≤ 704 }
    ensures text { chunk.new.items ≡ chunk.old.items ++ four number }
    ensures size { length chunk.new.items ≡ length chunk.old.items + 4 }
{
    put(chunk, &number.to_be_bytes());
}
