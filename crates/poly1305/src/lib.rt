//! Poly1305 (RFC 8439, 2.5): a tag of 16 bytes of a message, by a key that is used once.
//!
//! A contract sees the tag as `tag` of `specs/Poly1305.antt`: the blocks of the message as the
//! coefficients of a polynomial, its value at r modulo 2^130 - 5, and s added modulo 2^128. A
//! [`Poly1305`] takes a message in parts.
//!
//! Nothing here refuses, takes memory or is wiped. No branch and no address depends on a key or a
//! message, only on lengths. That is so by construction and tested over the built program; it isn't
//! proved. That a key is used for one message is the caller's to keep.
//!
//! Tests: `chacha_tests`.
#![tactic(auto)]

pub mod laws;
mod limbs;
mod mac;

pub use mac::{Poly1305, tag};
