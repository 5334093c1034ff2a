//! Tests of poly1305, chacha20 and chacha_poly over published vectors, a module a crate.
//!
//! They are a crate of their own, so that each of those crates is proved without them, and use
//! public calls alone.
#![tactic(auto)]

#[cfg(test)]
mod chacha20_tests;
#[cfg(test)]
mod chacha_poly_tests;
#[cfg(test)]
mod expected;
#[cfg(test)]
mod poly1305_tests;
