// Bytes over others.
ghost use Rattle.pr_keep.specs.Disk.{written};
ghost use Rattle.std.specs.Prelude.{◌≡◌, ◌≤◌, ◌+◌, length};

/// Puts a piece over what stands at a place.
pub fn lay(bytes: &mut Vec<u8>, at: usize, piece: &[u8])
    requires { at + length piece.now ≤ length bytes.old.items }
    ensures { bytes.new.items ≡ written at piece.now bytes.old.items }
{
    bytes[at..at + piece.len()].copy_from_slice(piece);
}
