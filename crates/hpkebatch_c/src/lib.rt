//! hpkebatch for callers in C: `include/hpkebatch.h` declares what is here.
//!
//! Each function is one call of `library_calls`, and states its clauses: the status that it answers, 0 where
//! it did its work, and what it writes of the caller's own bytes. Bytes cross as a pointer and a length, and
//! keys and nonces of one size as a pointer alone. The caller owns all memory: nothing is kept between two
//! calls, and nothing has to be freed.
//!
//! No call has a condition that its caller must meet, since nothing would check it. What is left to C stands
//! at the head of the header: memory that is valid and doesn't overlap, and one call at a time on one context.
#![tactic(auto)]

mod batches;
mod capsules;
mod ciphers;
mod contexts;
mod kem;
mod setups;
