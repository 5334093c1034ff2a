//! The field of Curve25519 (RFC 7748, 4.1): numbers modulo p = 2^255 - 19.
//!
//! A contract sees an [`Element`] as its number below p. Sums, differences, products and powers are
//! those of `specs/Field.antt`, for every pair. An element is kept as five limbs of 51 bits and a
//! little more, so one number has several forms; [`Element::to_bytes`] gives the one coding of it.
//!
//! No branch and no address depends on a limb, which is tested over the built program by `x25519`'s
//! calls (`tools/secrets`), and not proved. Nothing is wiped.
//!
//! Tests: `curve_tests`, by X25519.
#![tactic(auto)]

mod bytes;
mod canonical;
mod carries;
mod elements;
mod inverses;
mod limbs;
mod products;

pub use elements::{Element, Loose, exchange};
pub use limbs::mask_of;
