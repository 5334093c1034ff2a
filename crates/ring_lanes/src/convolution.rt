//! The convolution, 32 sums at a time.
//!
//! The plain form: sum k is that of small[i] * long[k - i] over all i. Here 32 neighbouring sums are
//! the lanes of a vector, and row i of them is small[i] times the 32 coefficients of the long factor
//! from k - i on, which lies between zeros, so that each row is whole. Eight rows are added in lanes
//! of 16 bits, since 8 times 4095 fits, and then widened. Groups of rows that meet zeros alone are
//! left out, by their places. Why this is the convolution: `rows_more`, `rows_none` and `rows_all` of
//! the proofs.
//!
//! A coefficient is multiplied by and never compared, though each row is the long factor itself, its
//! negative or nothing: compilers make jumps of comparisons, also of those that look like masks.

ghost use Rattle.std.specs.Prelude.{◌≡◌, ℕ, pos, ◌+◌, ◌*◌, ◌%◌, ◌^◌, ◌<◌, ◌≤◌, length, vec_len, IfOk};
ghost use Rattle.ring_core.specs.Bounds.{IsWithin};
ghost use Rattle.ring_core.specs.Product.{coefficients, conv};
ghost use Rattle.ring_lanes.specs.Rows.{eighth, rows_sum, AreEights, AreLanes};

use crate::padding::{eightfold, padded};
use std::alloc::{AllocError as OutOfMemory, Global};
use std::simd::prelude::*;

// Eight lanes, four times.
const FOUR_TIMES: [usize; 32] = [
    0, 1, 2, 3, 4, 5, 6, 7, 0, 1, 2, 3, 4, 5, 6, 7, 0, 1, 2, 3, 4, 5, 6, 7, 0, 1, 2, 3, 4, 5, 6, 7,
];

// Eight rows of 32 sums. The first is that of the factor at `first`, and has the coefficients of the
// long factor from `at` on; those of each next one begin a place earlier.
#[inline(always)]
fn eight_rows(factors: &[i16], first: usize, long: &[i16], at: usize) -> i16x32
    requires rows { 8 * first + 64 ≤ length factors.now }
    requires front { 7 ≤ at }
    requires back { at + 32 ≤ length long.now }
    requires copies { AreEights factors.now }
    requires factors_small { IsWithin 1 factors.now }
    requires long_small { IsWithin 4095 long.now }
    ensures { AreLanes result (λ l. rows_sum (λ i. eighth factors.now (first + i))
        (coefficients long.now) (at + l) 8) }
{
    let mut sums = i16x32::splat(0);
    for row in 0..8 {
        let factor = i16x8::from_slice(&factors[8 * (first + row)..]).swizzle(FOUR_TIMES);
        sums = sums.strict_add(i16x32::from_slice(&long[at - row..]).strict_mul(factor));
    }
    sums
}

// All rows of 32 sums, in groups of eight.
fn rows(factors: &[i16], first: usize, long: &[i16], at: usize, groups: usize) -> i32x32
    requires rows { 8 * first + 64 * groups ≤ length factors.now }
    requires few { length factors.now ≤ 8192 }
    requires front { 8 * groups ≤ at }
    requires back { at + 32 ≤ length long.now }
    requires copies { AreEights factors.now }
    requires factors_small { IsWithin 1 factors.now }
    requires long_small { IsWithin 4095 long.now }
    ensures { AreLanes result (λ l. rows_sum (λ i. eighth factors.now (first + i))
        (coefficients long.now) (at + l) (8 * groups)) }
{
    let mut sums = i32x32::splat(0);
    for group in 0..groups {
        let row = 8 * group;
        let eight = eight_rows(factors, first + row, long, at - row);
        sums = sums.strict_add(eight.cast::<i32>());
    }
    sums
}

// Writes the sums of the convolution of the factors, each of which stands eight times, and `long`,
// which has `count` numbers behind 32 zeros, and zeros behind them.
fn write_sums(sums: &mut [i32], factors: &[i16], long: &[i16], count: usize)
    requires whole { length sums.old % 32 ≡ 0 }
    requires sums_few { length sums.old ≤ 2 * count + 31 }
    requires groups { length factors.now % 64 ≡ 0 }
    requires enough { 8 * count ≤ length factors.now }
    requires few { length factors.now ≤ 8192 }
    requires copies { AreEights factors.now }
    requires front { (k : ℕ) → k < 32 → coefficients long.now k ≡ pos 0 }
    requires back { (k : ℕ) → count + 32 ≤ k → coefficients long.now k ≡ pos 0 }
    requires room { count + 72 ≤ length long.now }
    requires factors_small { IsWithin 1 factors.now }
    requires long_small { IsWithin 4095 long.now }
    ensures { (k : ℕ) → k < length sums.old → coefficients sums.new k
        ≡ conv (eighth factors.now) (coefficients long.now) (k + 32) }
{
    for block in 0..sums.len() / 32 {
        let at = 32 * block;
        let first = at.saturating_sub(count) / 8;
        let last = (at / 8 + 4).min(factors.len() / 64);
        rows(factors, 8 * first, long, at + 32 - 8 * first, last - first).copy_to_slice(
            &mut sums[at..],
        );
    }
}

// The 2n sums of the convolution of `small` and `long`, of n coefficients each.
pub(crate) fn convolution(
    alloc: Global,
    small: &[i16],
    long: &[i16],
) -> Result<Vec<i32>, OutOfMemory>
    requires same { length small.now ≡ length long.now }
    requires few { length long.now ≤ 1023 }
    requires small_small { IsWithin 1 small.now }
    requires long_small { IsWithin 4095 long.now }
    ensures count { IfOk result (λ v. vec_len v ≡ 2 * length long.now) }
    ensures bound { IfOk result (λ v. IsWithin (2 ^ 22) v.items) }
    ensures sums { IfOk result (λ v. (k : ℕ) → k < 2 * length long.now
        → coefficients v.items k ≡ conv (coefficients small.now) (coefficients long.now) k) }
{
    let n = long.len();
    let factors = eightfold(alloc, small, 8 * n.next_multiple_of(8))?;
    let long = padded(alloc, long, 32, n + 72)?;
    let mut sums = vec![in alloc; 0i32; (2 * n).next_multiple_of(32)]?;
    write_sums(&mut sums, &factors, &long, n);
    sums.truncate(2 * n);
    Ok(sums)
}
