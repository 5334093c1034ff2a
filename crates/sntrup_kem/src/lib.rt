//! The KEM of Streamlined NTRU Prime (NTRU Prime round 3, KeyGen, Encap and Decap) with the sets
//! sntrup761 and sntrup857: a session key of 32 bytes for two ends, of which one knows the other's
//! public key.
//!
//! A contract sees a [`PublicKey`], a [`SecretKey`] and an [`Enc`] as their bytes, of which there
//! are as many as [`KemParams`] says of the set. Each call is a function of these and of the random
//! words that it is given, by the definitions of `specs/Kem.antt`, with each
//! [`Multiplier`](ring_core::Multiplier). [`decap`] refuses no ciphertext: other bytes than those
//! of an encapsulation get a key that is made from them and a secret of the key. [`laws`] says that
//! both ends get the same key, with every pair of keys that [`generate`] gives.
//!
//! Nothing is claimed of secrecy, and nothing is wiped. That no branch and no address of [`encap`]
//! and [`decap`] depends on r, f, 1/g, rho or a session key, with a multiplier of which this holds,
//! is tested over the built program, and not proved. The time of [`generate`] tells how many
//! polynomials were drawn for g, and what `ring_inverse` says of inverses.
//!
//! Tests: `lattice_tests`.
#![tactic(auto)]

mod encapsulation;
mod generation;
mod hashes;
mod keys;
pub mod laws;
mod masks;
mod params;

pub use encapsulation::{Enc, decap, encap};
pub use generation::generate;
pub use keys::{KeyBytesFault, PublicKey, SecretKey};
pub use params::KemParams;
pub use sntrup_core::KeyFault;
