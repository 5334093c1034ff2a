//! What a seat at the lock's table knows. No value of these types is made.

use call_places::{Entry, Terms};
use std::collections::LinkedList;

// Where a seat is in its turn, with its ticket.
pub enum Phase {
    Idle,
    Waiting(u64),
    // Its ticket is the turn, and it has the value.
    Holding(u64),
}

// The number of a pass, and the entries that were seen under it.
pub struct Part {
    pub number: u64,
    pub seen: LinkedList<Entry>,
}

// A seat has one part, until seats are joined. One part for each number, in place of the longer
// list alone, tells at the close that each pass's entries begin the value's.
pub struct View {
    pub phase: Phase,
    pub parts: LinkedList<Part>,
    // How many turns are over.
    pub turns: u64,
    // Whether this seat makes the numbers, and how many it has made.
    pub makes: bool,
    pub made: u64,
    // The lock's terms, which a step can't read from the table's key.
    pub terms: Terms,
}
