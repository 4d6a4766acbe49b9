// Spelling an entry at the end of bytes. After a refusal a beginning of the field was added.
mod entries;
mod fields;
mod parts;

pub use entries::append_entry;
