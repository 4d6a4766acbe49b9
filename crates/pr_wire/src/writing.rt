// Writing a message in format 2, in chunks of a few fields.
mod chunk;
mod fields;
mod left;
mod opening;
mod vectors;

pub use chunk::{Chunk, put, put_byte, put_eight};
pub use fields::{put_name, put_stamp};
pub use left::{Left, step};
pub use opening::open;
pub use vectors::put_vector;
