//! The tests of `x25519` and `x25519_kem`, over published vectors; those of `field25519` are X25519's.
//!
//! They are a crate of their own, so that each of those crates is proved without them.
#![tactic(auto)]

#[cfg(test)]
mod expected;
#[cfg(test)]
mod x25519_kem_tests;
#[cfg(test)]
mod x25519_tests;
