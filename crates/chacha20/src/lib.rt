//! ChaCha20 (RFC 8439, 2.4): encryption in the text's place, four blocks at a time.
//!
//! A contract sees a [`ChaChaKey`] as its key's bytes. The definitions are in `specs/ChaCha20.antt`;
//! the rounds are those of the kit's `rand_chacha`.
//!
//! Nothing here refuses, takes memory or is wiped. No branch and no address depends on a key, a nonce
//! or a text, only on lengths. That is so by construction and tested over the built program; it isn't
//! proved. Nonces are the caller's, who must never encrypt twice with one key, nonce and block counter.
//!
//! Tests: `chacha_tests`.
#![tactic(auto)]

mod adding;
mod key;
mod lanes;
pub mod laws;
mod rounds;

pub use key::ChaChaKey;
