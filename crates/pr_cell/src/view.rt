// What a seat knows. No value of these types is ever made: they stand in the rule alone.
use std::collections::LinkedList;

/// How far a seat is with its ticket.
pub enum Stage {
    /// It has none.
    Idle,
    /// It has drawn this ticket.
    Waiting(u64),
    /// Its ticket is served, and it has the value.
    Holding,
    /// It has shared its turn's entries, and has the value still.
    Booked,
}

/// A beginning of the shared list that was seen, and numbers of which there is nothing past it.
pub struct Known<E> {
    pub since: LinkedList<E>,
    pub held: LinkedList<u64>,
}

/// What a seat knows.
pub struct View<E> {
    /// The entries that the cell was opened with. What is known of the list begins after them.
    pub opening: LinkedList<E>,
    /// The number that its turns are counted under.
    pub number: u64,
    /// The turns of that number.
    pub turns: u64,
    /// How many numbers were made, at the seat that holds 0; else 0.
    pub issued: u64,
    /// How far it is with its ticket.
    pub stage: Stage,
    /// What it knows of the shared list.
    pub main: Known<E>,
    /// What the seat knew that was joined into it, until the load that compares the two.
    pub other: Known<E>,
}
