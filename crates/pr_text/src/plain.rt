//! The plain program: the lines and the jobs that a script's commands are in its history, as the definitions have them.
//! A run does not need them; the judge of transcripts says by `Asked` what a line was asked for.

mod jobs;
mod line;
mod lines;

pub use jobs::jobs_of;
pub use line::{Asked, Job, Line};
pub use lines::{line_of, lines_of};
