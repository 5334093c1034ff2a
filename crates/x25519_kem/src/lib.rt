//! DHKEM(X25519, HKDF-SHA256) (RFC 9180, 4.1 and 7.1, kem_id 0x0020): a shared secret of 32 bytes for
//! two ends, of which one knows the other's public key.
//!
//! A contract sees a [`KeyPair`] as its secret key, and all else as bytes. [`KeyPair::generate`],
//! [`KeyPair::derive`], [`encap`] and [`decap`] are GenerateKeyPair, DeriveKeyPair, Encap and Decap by
//! the definitions of `specs/Kem.antt`, for all 32 bytes and all random words. Encap and Decap refuse
//! exactly where the output of X25519 is zero. [`laws`] says that both ends get the same secret, on
//! the premise that X25519 agrees for their two secret keys: that is a fact about the curve, which
//! no crate here proves.
//!
//! The modes with a sender's key (AuthEncap, AuthDecap) aren't here. That no branch and no address
//! depends on a secret key, an ephemeral key or a shared secret, but for the one test whether the
//! output is zero, is tested over the built program (`tools/secrets`), and not proved. Nothing is
//! wiped.
//!
//! Tests: `curve_tests`.
#![tactic(auto)]

mod exchanges;
mod keys;
pub mod laws;

pub use exchanges::{Encapsulation, ZeroDh, decap, encap};
pub use keys::KeyPair;
