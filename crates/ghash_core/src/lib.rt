//! GHASH, the hash of GCM, and its field (NIST SP 800-38D, 6.3 and 6.4).
//!
//! A block of 16 bytes is an element of the field: a `u128` whose highest bit is the block's
//! leftmost bit, the coefficient of u^0. [`field_mul`] is the product as the standard's sum states
//! it, `product` of `specs/Field.antt`, for every pair. [`Ghash`] takes byte strings, each padded
//! to whole blocks, and gives `ghash` of `specs/Hash.antt`: the sum of the blocks times the powers
//! of the key. [`laws`] says that this is the standard's recursion, and states the field's laws.
//!
//! A contract sees a [`GhashKey`] as its block. The key keeps 2 KiB of tables of its first four
//! powers, in fixed arrays, which are read in registers. No branch and no address depends on the key
//! or on what is hashed: that is tested over the built program, not proved. Nothing here refuses,
//! takes memory or is wiped.
//!
//! Tests: `hpke_tests`.
#![tactic(auto)]

mod blocks;
mod field;
mod hash;
mod lanes;
pub mod laws;
mod powers;
mod products;
mod rows;

pub use field::field_mul;
pub use hash::{Ghash, GhashKey};
