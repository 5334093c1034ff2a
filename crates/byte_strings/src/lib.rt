//! Byte strings, lists and decimal numbers: what every layer above speaks of.
//!
//! A byte string is a list of numbers below 256. `specs/Bytes.antt` has I2OSP (RFC 8017, 4.1) and
//! XOR, which HPKE's labels and nonces (RFC 9180) and the modes of AES share. A [`PlainList`] is a
//! vector that contracts see as the list of its items; [`copied`] and [`joined`] make one.
//!
//! A decimal has no leading zeros, as the command line, the batch text and the reply text write it.
//! `is_decimal` and `decimal_from_to` of `specs/Decimals.antt` say which texts are decimals and which
//! numbers they write. The value is that of std's `digits_value`, so a decimal may have any number of
//! digits. [`is_decimal`], [`value_of`] and [`decimal_from_to`] are these, exactly.
//!
//! What bytes or a number mean, and which range a number has, is not known here.
//!
//! Tests: `text_tests`; for the byte strings `hpke_tests`, of the crates whose contracts use them.
#![tactic(auto)]

mod decimals;
mod lists;

pub use decimals::{decimal_from_to, is_decimal, value_of};
pub use lists::{ByteList, PlainList, copied, joined};
