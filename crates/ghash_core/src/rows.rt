//! The table of an element, and its products with polynomials of degree below 4. Which entry is made
//! of which terms depends on its place alone, so secrets are only added.

ghost use Rattle.std.specs.Prelude.{◌≡◌, ◌∷◌, [], ◌*◌, ◌^◌, ℕ, map};
ghost use Rattle.std.specs.List.{range_with_len};
ghost use Rattle.ghash_core.specs.Field.{by_power, product, IsProducts};
ghost use Rattle.ghash_core.specs.Rows.{chosen, AreRows, IsTable};

use crate::field::{by_u, masked};
use std::simd::prelude::*;

// Of each number below 16 all bits where bit 3, 2, 1 or 0 of it is set.
const BIT_3: [u8; 16] = [
    0, 0, 0, 0, 0, 0, 0, 0, 255, 255, 255, 255, 255, 255, 255, 255,
];

const BIT_2: [u8; 16] = [
    0, 0, 0, 0, 255, 255, 255, 255, 0, 0, 0, 0, 255, 255, 255, 255,
];

const BIT_1: [u8; 16] = [
    0, 0, 255, 255, 0, 0, 255, 255, 0, 0, 255, 255, 0, 0, 255, 255,
];

const BIT_0: [u8; 16] = [
    0, 255, 0, 255, 0, 255, 0, 255, 0, 255, 0, 255, 0, 255, 0, 255,
];

// The table of an element h. Entry v of row j is byte j, where byte 0 is the lowest, of the product of
// h and a block that is zero but for four bits, those of v: its first four in `high`, its next four in
// `low`.
#[derive(Clone, Copy, Drop)]
pub(crate) struct Table {
    pub(crate) high: [[u8; 16]; 16],
    pub(crate) low: [[u8; 16]; 16],
}

// An element times 1, u, u^2 and u^3.
fn terms(h: u128) -> [u128; 4]
    ensures { result ≡ h ∷ by_power 1 h ∷ by_power 2 h ∷ by_power 3 h ∷ [] }
{
    let second = by_u(h);
    let third = by_u(second);
    [h, second, third, by_u(third)]
}

// The products of an element with the sixteen polynomials of degree below 4.
pub(crate) fn products_of(h: u128) -> [u128; 16]
    ensures { IsProducts result h }
{
    let [a, b, c, d] = terms(h);
    let mut products = [0u128; 16];
    for i in 0..16usize {
        let v = i as u128;
        products[i] = masked(v >> 3 & 1, a)
            ^ masked(v >> 2 & 1, b)
            ^ masked(v >> 1 & 1, c)
            ^ masked(v & 1, d);
    }
    products
}

// In lane v the sum of those of four bytes that the bits of v name.
#[inline(always)]
fn spread(a: u8, b: u8, c: u8, d: u8) -> u8x16
    ensures { result ≡ map (λ v. chosen v a b c d) (range_with_len 0 16) }
{
    (u8x16::splat(a) & u8x16::from_array(BIT_3))
        ^ (u8x16::splat(b) & u8x16::from_array(BIT_2))
        ^ (u8x16::splat(c) & u8x16::from_array(BIT_1))
        ^ (u8x16::splat(d) & u8x16::from_array(BIT_0))
}

// The rows of an element for the first four bits of a block.
fn rows_of(h: u128) -> [[u8; 16]; 16]
    ensures { AreRows result (2 ^ 124) h }
{
    let [first, second, third, fourth] = terms(h);
    let a = first.to_le_bytes();
    let b = second.to_le_bytes();
    let c = third.to_le_bytes();
    let d = fourth.to_le_bytes();
    let mut rows = [[0u8; 16]; 16];
    for j in 0..16usize {
        rows[j] = spread(a[j], b[j], c[j], d[j]).to_array();
    }
    rows
}

// The table of an element. The rows for the next four bits are those of u^4 times the element.
pub(crate) fn table_of(h: u128) -> Table
    ensures { IsTable result h }
{
    let [_, _, _, fourth] = terms(h);
    Table {
        high: rows_of(h),
        low: rows_of(by_u(fourth)),
    }
}
