//! The definitions as slow functions over a journal's entries, the oldest first. Each reads the whole list once or
//! many times; faster bodies are tested against them.
ghost use Rattle.std.specs.Prelude.{◌≡◌, ◌||◌, ◌↔◌, IsTrue};

mod answers;
mod bodies;
mod clients;
mod marks;
mod names;
mod newest;
mod next;
mod ordered;
mod pairs;
mod sets;
mod snapshots;
mod starts;
mod told;
mod turns;
mod vectors;
mod withheld;
mod writes;

pub use answers::answer;
pub use bodies::held_body;
pub use clients::{client_vector, stream_time};
pub use marks::marks_of;
pub use names::names_known;
pub use newest::newest_known;
pub use next::Next;
pub use pairs::conflicts;
use pr_names::Name;
pub use sets::{rest_of, set_of};
pub use snapshots::snapshot;
pub use starts::start;
pub use told::{first_untold, is_told, last_precise};
pub use turns::turn;
pub use vectors::{current_vector, cuts_of, floor_of, vector_after};
pub use withheld::{dark_between, omitted_between};
pub use writes::{known_write, next_write};

// Whether one of the two holds. A call, so that a loop's proof has one case.
fn either(a: bool, b: bool) -> bool
    ensures { result ≡ (a || b) }
{
    a || b
}

// Whether two names are one.
fn is_same(a: &Name, b: &Name) -> bool
    ensures { IsTrue result ↔ (a.now ≡ b.now) }
{
    *a == *b
}
