// Reading the content of a frame, field by field.
mod cursor;
mod kinds;
mod lists;
mod names;
mod stamps;
mod vectors;

pub use cursor::Cursor;
pub use kinds::message;
