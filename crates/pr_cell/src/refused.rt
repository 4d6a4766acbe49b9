// Want of memory.

/// There was no memory for a cell. The value comes back.
#[derive(Drop)]
pub struct Refused<T> {
    pub value: T,
}
