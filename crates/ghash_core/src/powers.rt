//! The products of four blocks with the powers of an element, in one sum that is reduced once.
//!
//! The plain form is four steps of the standard, each with a product. They come to the sum of the
//! first block times h^4, the second times h^3, the third times h^2 and the fourth times h:
//! `four_steps` of `proofs/FourBlocks.antt`. A reduction is linear, so the rows of the four products
//! are added before the sum moves on (`rows-four` there), and the sum so far, which is part of the
//! first block, keeps none of the other three waiting.

ghost use Rattle.std.specs.Prelude.{◌≡◌, ◌<◌, ◌*◌, ◌^◌, ℕ, length};
ghost use Rattle.ghash_core.specs.Field.{power, product};
ghost use Rattle.ghash_core.specs.Rows.{ArePowers, element, bytes_of_products, sum_of_four};

use crate::blocks::{from_lanes, to_lanes};
use crate::lanes::{one_on, reduced};
use crate::products::{bytes_at, product_by};
use crate::rows::{Table, table_of};
use std::simd::prelude::*;

// The tables of an element and of its next three powers.
#[derive(Clone, Copy, Drop)]
pub(crate) struct Powers {
    pub(crate) first: Table,
    second: Table,
    third: Table,
    fourth: Table,
}

// The tables of an element's powers.
pub(crate) fn powers_of(h: u128) -> Powers
    ensures { ArePowers result h }
{
    let first = table_of(h);
    let second = product_by(&first, to_lanes(h));
    let third = product_by(&first, second);
    let fourth = product_by(&first, third);
    Powers {
        first,
        second: table_of(from_lanes(second)),
        third: table_of(from_lanes(third)),
        fourth: table_of(from_lanes(fourth)),
    }
}

// Byte j of the products of each byte of four blocks, each block with its own power, in one sum.
#[inline(always)]
fn bytes_of_four(powers: &Powers, j: usize, a: u8x16, b: u8x16, c: u8x16, d: u8x16) -> u8x16
    requires { j < 16 }
    ensures sum { (h : ℕ) → ArePowers powers.now h
        → element result ≡ sum_of_four (element (bytes_of_products j (power h 4) a))
        (element (bytes_of_products j (power h 3) b))
        (element (bytes_of_products j (power h 2) c))
        (element (bytes_of_products j h d)) }
    ensures long { (h : ℕ) → ArePowers powers.now h → length result ≡ 16 }
{
    bytes_at(&powers.fourth, j, a)
        ^ bytes_at(&powers.third, j, b)
        ^ bytes_at(&powers.second, j, c)
        ^ bytes_at(&powers.first, j, d)
}

// The sum of the products of four blocks, the first with the fourth power.
pub(crate) fn sum_of_products(powers: &Powers, a: u8x16, b: u8x16, c: u8x16, d: u8x16) -> u8x16
    ensures { (h : ℕ) → h < 2 ^ 128 → ArePowers powers.now h
        → element result ≡ sum_of_four (product (element a) (power h 4)) (product (element b) (power h 3))
        (product (element c) (power h 2)) (product (element d) h) }
{
    let zero = u8x16::splat(0);
    let mut low = bytes_of_four(powers, 0, a, b, c, d);
    let mut high = zero;
    for j in 1..16usize {
        high = one_on(low, high);
        low = one_on(zero, low) ^ bytes_of_four(powers, j, a, b, c, d);
    }
    reduced(low, high)
}
