//! Tests of capsules: of one message (ohttp_capsule) and of whole batches (capsule_frames).
//!
//! They are a crate of their own, so that each of those crates is proved without them, and use
//! public calls alone.
#![tactic(auto)]

#[cfg(test)]
mod expected;
#[cfg(test)]
mod ohttp_capsule_tests;
#[cfg(test)]
mod whole_batches;
