//! Tests of the crates of the core, over published messages: tables of verdicts (speculative_open),
//! books and replies (context_books), set-ups (context_table) and rehearsals (context_core).
//!
//! They are a crate of their own, so that each of those crates is proved without them, and use
//! public calls alone.
#![tactic(auto)]

#[cfg(test)]
mod books;
#[cfg(test)]
mod expected;
#[cfg(test)]
mod messages;
#[cfg(test)]
mod rehearsals;
#[cfg(test)]
mod replies;
#[cfg(test)]
mod set_ups;
#[cfg(test)]
mod tables;
