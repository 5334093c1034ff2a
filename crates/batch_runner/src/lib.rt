//! Runs a command on its input: the top call.
//!
//! [`serve_words`] reads an input from a [`Source`](batch_io::Source) and writes one text to a
//! [`Sink`](batch_io::Sink). `MayEnd` of batch_serving says which texts a command may write for an
//! input. Here are the commands whose work threads do: `run` and `live`, whose lanes share their
//! contexts, `rehearse`, whose lanes are answered side by side, `capsules`, and `demo`. The steps that
//! need no threads are batch_serving's.
//!
//! A contract sees the source and the sink as the bytes that they report and as their counts of
//! faults. Each [`Outcome`] but `OutOfMemory` has its cause there. What standard input and output
//! hold is not known here: the source and the sink that the program uses report no bytes.
//!
//! Tests: `serving_tests`.
#![tactic(auto)]

mod demonstrating;
mod exchanging;
mod living;
mod rehearsing;
mod running;
mod serving;

pub use batch_serving::{Outcome, status, written_replies_are_legal};
pub use serving::{serve_pure, serve_words};
