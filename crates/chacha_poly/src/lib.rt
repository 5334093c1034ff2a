//! AEAD_CHACHA20_POLY1305 (RFC 8439, 2.8), in the shape of `aes_gcm`.
//!
//! A contract sees a [`ChaChaPolyKey`] as its key's bytes. [`ChaChaPolyKey::seal_into`],
//! [`ChaChaPolyKey::check_tag`] and [`ChaChaPolyKey::decrypt_into`] are `seal`, `Holds` and `clear` of
//! `specs/Aead.antt`. Opening is two calls: a tag is checked first, and only then is anything
//! decrypted. [`Checks`] counts the tags that `check_tag` checked. [`ChaChaPolyKey::hold_at`] checks a
//! ciphertext at four nonces, and isn't counted.
//!
//! Nothing here refuses, takes memory or is wiped. No branch and no address depends on a key or a
//! text, but for the one branch on the verdict. That is so by construction and tested over the built
//! program; it isn't proved. Nonces are the caller's, who must never seal twice with one key and nonce.
//!
//! Tests: `chacha_tests`.
#![tactic(auto)]

mod key;
pub mod laws;
mod tags;

pub use key::ChaChaPolyKey;
pub use tag_checks::{Checks, MayCheck};
