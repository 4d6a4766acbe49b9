// Reading an entry's spelling, field by field.
mod entries;
mod events;
mod fields;
mod late_events;
mod messages;
mod parts;

pub use entries::whole_entry;
