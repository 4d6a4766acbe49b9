// Waiting by looks.
ghost use Rattle.std.specs.Prelude.{◌≡◌, ◌<◌, IsTrue, false, true};

use std::{hint, thread};

// How many looks are made at full speed before other threads are let on.
const SPIN: u64 = 64;

// Looks until it is so, at most so often. Whether it was.
pub(crate) fn is_seen<F: Fn() -> bool>(looks: u64, is_so: F) -> bool
    requires { F.IsAlwaysCallable is_so }
    ensures seen { IsTrue result → F.post is_so true }
    ensures missed { result ≡ false → 0 < looks → F.post is_so false }
{
    for look in 0..looks {
        if is_so() {
            return true;
        }
        rest(look);
    }
    false
}

// Lets the processor rest for a moment after this look.
fn rest(look: u64) {
    if look % SPIN == SPIN - 1 {
        thread::yield_now();
    } else {
        hint::spin_loop();
    }
}
