//! Random words, and the random small and short polynomials made of them (NTRU Prime round 3, Small
//! and Short).
//!
//! A contract sees a source of [`Words`] as a place and the word at each place. A [`SeedStream`] is
//! a stream of ChaCha20, whose words `rand_chacha` states. `small_random` and `short_random` take p
//! words each, and their polynomials are `small` and `short` of `specs/Samples.antt`, functions of
//! these words. All memory is taken before the first word, so `OutOfMemory` leaves the words as
//! they were. [`laws`] says which list `sorted` is.
//!
//! That the words can't be foretold is ChaCha's claim. No branch and no address depends on a word but
//! by the sort's test that its words are in order, which they are: tested over the built program, not
//! proved. Nothing is wiped.
//!
//! Tests: `lattice_tests`.
#![tactic(auto)]

pub mod laws;
mod marks;
mod network;
mod samples;
mod sorting;
mod streams;
mod words;

pub use samples::{short_random, small_random};
pub use streams::SeedStream;
pub use words::Words;
