// What the calls of a node answer.

mod answer;
mod done;
mod seen;
mod turned;

pub use answer::Answer;
pub use done::Done;
pub use seen::Seen;
pub use turned::Turned;
