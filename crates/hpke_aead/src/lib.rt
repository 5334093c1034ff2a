//! The AEADs of HPKE (RFC 9180, 7.3) as one type.
//!
//! A contract sees an [`AeadKey`] as itself, with the bytes of its key: two ciphers have keys of 32 bytes,
//! so bytes alone don't say what they seal. [`AeadKey::seal_into`], [`AeadKey::check_tag`] and
//! [`AeadKey::decrypt_into`] are `seal`, `Holds` and `clear` of `specs/Aeads.antt`, which go by cases to the
//! cipher's own crate; what is promised of time and memory stands there. Opening is two calls: a tag is
//! checked first, and only then is anything decrypted.
//!
//! Tests: `hpke_tests`.
#![tactic(auto)]

mod keys;
pub mod laws;

pub use keys::AeadKey;
