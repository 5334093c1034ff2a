//! The product with a fixed element h, by a table that is read in registers. The plain form is
//! `field_mul`: a step for each of the 128 bits of a block.
//!
//! A block is the sum of its bytes, each moved to its place by a power of u^8, so its product is the
//! sum of the products of the bytes with h, moved alike. Row j of the table has byte j of the products
//! of the sixteen values of four bits: one look-up at sixteen places gives byte j of the products of
//! all sixteen bytes, each in the lane where its byte stands. The rows are summed from byte 0, the
//! last, to byte 15, and between two of them the sum moves on by a byte: `sum_of_rows-all` of
//! `proofs/Tables.antt`. What moves out of a vector comes into a second one, which is reduced once, at
//! the end: `reduced_is` of `proofs/Reductions.antt`.
//!
//! The form is for secrets: sixteen entries are one register, in which a look-up has no address, and
//! where a row stands depends on j alone.

ghost use Rattle.std.specs.Prelude.{◌≡◌, ◌<◌, ◌*◌, ◌^◌, ℕ};
ghost use Rattle.ghash_core.specs.Field.{product};
ghost use Rattle.ghash_core.specs.Rows.{IsTable, element, bytes_of_products};

use crate::lanes::{by_high_bits, by_low_bits, one_on, reduced};
use crate::rows::Table;
use std::simd::prelude::*;

// Byte j of the products of h with each byte of a block.
#[inline(always)]
pub(crate) fn bytes_at(table: &Table, j: usize, x: u8x16) -> u8x16
    requires { j < 16 }
    ensures { (h : ℕ) → IsTable table.now h → result ≡ bytes_of_products j h x }
{
    let high = u8x16::from_array(table.high[j]);
    let low = u8x16::from_array(table.low[j]);
    by_high_bits(high, x) ^ by_low_bits(low, x)
}

// The product of a block and the element whose table this is.
pub(crate) fn product_by(table: &Table, x: u8x16) -> u8x16
    ensures { (h : ℕ) → h < 2 ^ 128 → IsTable table.now h
        → element result ≡ product (element x) h }
{
    let zero = u8x16::splat(0);
    let mut low = bytes_at(table, 0, x);
    let mut high = zero;
    for j in 1..16usize {
        high = one_on(low, high);
        low = one_on(zero, low) ^ bytes_at(table, j, x);
    }
    reduced(low, high)
}
