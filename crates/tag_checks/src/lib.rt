//! What the ciphers share for checking a tag of 16 bytes: who may check one, how many were checked,
//! and the comparison.
//!
//! A contract sees [`Checks`] as a number, and [`ends_in`] as whether the last 16 bytes are these.
//! [`MayCheck`] says something only by where it comes from, which `tools/must_not_compile` shows.
//!
//! All bytes of two tags are compared at once, so that the only branch is that on the verdict. That
//! is so by construction and tested over the built program; it isn't proved.
//!
//! Tests: `hpke_tests`, over `aes_gcm`.
#![tactic(auto)]

mod checks;
mod comparing;

pub use checks::{Checks, MayCheck};
pub use comparing::ends_in;
