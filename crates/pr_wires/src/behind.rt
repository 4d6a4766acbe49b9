// The rest of some bytes.
ghost use Rattle.std.specs.Prelude.{◌≡◌, ◌≤◌, drop, length};

use arrayvec::ArrayVec;

// Forgets the bytes before a place. Where none is left, as behind each whole message, no other room is cleared.
pub(crate) fn forget<const CAP: usize>(bytes: &mut ArrayVec<u8, CAP>, at: usize)
    requires { at ≤ length bytes.old.items }
    ensures { bytes.new.items ≡ drop at bytes.old.items }
{
    if at == bytes.len() {
        bytes.clear();
    } else {
        *bytes = behind(bytes, at);
    }
}

// The bytes from a place on.
fn behind<const CAP: usize>(bytes: &ArrayVec<u8, CAP>, at: usize) -> ArrayVec<u8, CAP>
    requires { at ≤ length bytes.now.items }
    ensures { result.items ≡ drop at bytes.now.items }
{
    let mut rest = ArrayVec::new();
    let _ = rest.try_extend_from_slice(&bytes.as_slice()[at..]);
    rest
}
