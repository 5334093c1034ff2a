//! Verdicts on ciphertexts at guessed sequence numbers, found before their real number is known
//! (RFC 9180, 5.2: a message opens at the context's next number, and raises it).
//!
//! A contract sees a [`GuessTable`] as its room, its guess, its LIMIT and its rows. If a guess G is
//! right and at most k items before item i don't open, the number of item i is one of G + i - k to
//! G + i; these are checked for k up to 3.
//!
//! The promise for the layer above: after [`GuessTable::fill`] the table `Fits` its key, base nonce
//! and items (`specs/Tables.antt`). [`GuessTable::look`] says whether the tag holds at a number,
//! and answers `None` if the item wasn't checked there, and only then.
//!
//! A [`Crew`] says who fills the table: [`OnThreads`] of a runtime, or the calling thread
//! [`Alone`], for a library that has no runtime.
//!
//! Nothing here waits for a lock, decrypts, or keeps a sequence number. Only making a table takes
//! memory. A table is indexed by sequence numbers, which are public, and holds verdicts.
//!
//! Tests: `context_tests`.
#![tactic(auto)]

mod crew;
mod rows;
mod table;

pub use crew::{Alone, Crew, OnThreads};
pub use table::GuessTable;
