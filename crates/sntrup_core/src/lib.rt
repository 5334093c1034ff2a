//! The lattice part of Streamlined NTRU Prime: key generation, encryption and decryption of
//! polynomials (NTRU Prime round 3, KeyGen, Encrypt and Decrypt).
//!
//! Contracts are the definitions of `specs/Keys.antt` and `specs/Encryption.antt`, for each
//! parameter set and with each [`Multiplier`](ring_core::Multiplier). A key is a function of the
//! random words that `keygen` is given, and so are its two faults: no invertible g in 64 draws, and
//! no inverse of 3f. [`laws`] says that decryption gives back each short polynomial that was
//! encrypted, with every key of `keygen`.
//!
//! The bytes of keys and ciphertexts, the hashes and the rejection of other ciphertexts are not
//! here. That no branch and no address of `encrypt` and `decrypt` depends on r, f or 1/g, with a
//! multiplier of which this holds, is tested over the built program, and not proved; whether what
//! was decrypted is short is such a secret. The time of `keygen` tells how many polynomials it drew.
//! Nothing is wiped.
//!
//! Tests: `lattice_tests`.
#![tactic(auto)]

mod choosing;
mod encryption;
mod keys;
pub mod laws;

pub use encryption::{decrypt, encrypt};
pub use keys::{KeyFault, PublicPoly, SecretPolys, keygen};
