//! The block cipher AES (FIPS 197) with keys of 16 and of 32 bytes, encrypting.
//!
//! A contract sees an [`AesKey`] as its key's bytes. [`AesKey::encrypt_block`] is Cipher of the
//! standard, `cipher` of `specs/Cipher.antt`, for every key and block; [`AesKey::encrypt_eight`] is
//! it for each of eight blocks, and takes as long as one; [`AesKey::encrypt_counted`] is it for eight
//! that count up. The definition works by operations of the field, with the S-box from the inverse.
//! The code has eight states by bits and the S-box as a circuit (`gates.rt`), in the rounds and in
//! the key expansion alike.
//!
//! No branch and no address depends on a key or on a block: each step is an operation on whole
//! vectors, and the loops count rounds and words. That is so by construction and tested over the
//! built program; it isn't proved. Nothing here refuses, takes memory or is wiped. Not here:
//! AES-192, decryption of blocks, and any mode of use.
//!
//! Tests: `hpke_tests`.
#![tactic(auto)]

mod gates;
mod key;
mod key_expansion;
pub mod laws;
mod rounds;
mod slices;
mod tables;

pub use key::AesKey;
