//! What may come of an input by a command, and the steps that all ways of serving it share.
//!
//! `MayEnd` of `specs/Text.antt` says how a command may end for an input, and with which text. Here
//! are the definitions of that, and the steps that need no lanes: reading the input, setting up,
//! judging, writing. Two crates above serve lanes: batch_runner by threads, with the program's top
//! call, and batch_alone on the calling thread.
//!
//! `run` and `rehearse` work in this order: read the batch by its grammar; set up the keys and
//! contexts (RFC 9180, 5.1); take all memory for the replies and the journals; do the calls (RFC 9180,
//! 5.2 and 5.3); write. The text has the replies to the batch and the journals. The journals are
//! legal, and each seal and each opening is answered as the sequential context answers at its place in
//! its context's journal.
//!
//! A contract sees a source and a sink as the bytes that they report and as their counts of faults.
//! Each [`Outcome`] but `OutOfMemory` has its cause there. Nothing here starts a thread or waits.
//!
//! Tests: `serving_tests`.
#![tactic(auto)]

mod judging;
mod laws;
mod multipliers;
mod outcomes;
mod reading;
mod replying;
mod setting_up;
mod telling;

pub use judging::{judge, judge_live};
pub use laws::written_replies_are_legal;
pub use multipliers::Named;
pub use outcomes::{Outcome, status};
pub use reading::{ReadStop, read_input};
pub use replying::{tell_answered, tell_demonstration, tell_exchange, tell_live_run};
pub use setting_up::{Begun, begin};
pub use telling::tell_fault;
