//! What the product by tables does with a block's bytes in a register. A vector's lanes are the bytes
//! of a block, the highest first.

ghost use Rattle.std.specs.Prelude.{◌≡◌, ◌∷◌, ◌/◌, ◌%◌, map, length, take, slice_index};
ghost use Rattle.ghash_core.specs.Rows.{element, wide, stays, goes_on};

use std::simd::prelude::*;

// The places of sixteen bytes that begin at the last one of a first vector.
const ONE_ON: [usize; 16] = [
    15, 16, 17, 18, 19, 20, 21, 22, 23, 24, 25, 26, 27, 28, 29, 30,
];

// The entries that the high four bits of each byte name in a table of sixteen.
#[inline(always)]
pub(crate) fn by_high_bits(table: u8x16, x: u8x16) -> u8x16
    ensures { result ≡ map (λ b. slice_index table (b / 16)) x }
{
    table.swizzle_dyn_within::<16>(x >> u8x16::splat(4))
}

// The entries that the low four bits of each byte name.
#[inline(always)]
pub(crate) fn by_low_bits(table: u8x16, x: u8x16) -> u8x16
    ensures { result ≡ map (λ b. slice_index table (b % 16)) x }
{
    table.swizzle_dyn_within::<16>(x & u8x16::splat(15))
}

// The last byte of a vector, and the first fifteen of the vector after it.
#[inline(always)]
pub(crate) fn one_on(before: u8x16, x: u8x16) -> u8x16
    ensures { result ≡ slice_index before 15 ∷ take 15 x }
{
    before.shuffle(x, ONE_ON)
}

// What of u^128 times each byte stays at its place, and what goes on to the next: u^128 is
// 1 + u + u^2 + u^7, so that a byte comes back as it is and moved by 1, 2 and 7 bits.
#[inline(always)]
fn staying(x: u8x16) -> u8x16
    ensures { result ≡ map stays x }
{
    x ^ (x >> u8x16::splat(1)) ^ (x >> u8x16::splat(2)) ^ (x >> u8x16::splat(7))
}

#[inline(always)]
fn going_on(x: u8x16) -> u8x16
    ensures { result ≡ map goes_on x }
{
    (x << u8x16::splat(7)) ^ (x << u8x16::splat(6)) ^ (x << u8x16::splat(1))
}

// The block that two vectors come to, of which the second has fifteen bytes.
#[inline(always)]
pub(crate) fn reduced(low: u8x16, high: u8x16) -> u8x16
    requires { slice_index high 15 ≡ 0 }
    ensures { element result ≡ wide low high }
{
    low ^ staying(high) ^ one_on(u8x16::splat(0), going_on(high))
}
