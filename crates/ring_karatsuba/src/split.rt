//! The convolution of two lists that are split at the half.
//!
//! With f = f0 + x^h f1 and g = g0 + x^h g1 the product f g has the outer parts f0 g0 and
//! x^(2h) f1 g1. Its middle part x^h (f0 g1 + f1 g0) is (f0 + f1) (g0 + g1) without the outer
//! products, so three products of halves serve. Each halving doubles the coefficients at most, and
//! at most five halvings lead to lists of 32: everything stays within 32 bits.

ghost use Rattle.std.specs.Prelude.{◌≡◌, ℕ, ℤ, pos, ◌+◌, ◌*◌, ◌^◌, ◌<◌, ◌≤◌, length, vec_len, IfOk};
ghost use Rattle.ring_core.specs.Bounds.{IsWithin};
ghost use Rattle.ring_core.specs.Product.{coefficients};
ghost use Rattle.ring_karatsuba.specs.Sums.{AreJoined, AreParts, IsConvolution, IsFolded};

use crate::sums::{add_at, row_sums};
use std::alloc::{AllocError as OutOfMemory, Global};

// Lists of so many numbers are not split.
const LEAST: usize = 32;

// The sum of two halves, of which the second may be shorter.
fn folded(alloc: Global, low: &[i32], high: &[i32]) -> Result<Vec<i32>, OutOfMemory>
    requires order { length high.now ≤ length low.now }
    requires low_bound { IsWithin (2 ^ 18) low.now }
    requires high_bound { IsWithin (2 ^ 18) high.now }
    ensures count { IfOk result (λ v. vec_len v ≡ length low.now) }
    ensures sums { IfOk result (λ v. IsFolded v.items low.now high.now) }
{
    let mut sums = Vec::from_slice(alloc, low)?;
    add_at(&mut sums, 0, 1, high);
    Ok(sums)
}

// Adds to zeros what three products of halves make of the product.
fn join(sums: &mut [i32], half: usize, low: &[i32], middle: &[i32], high: &[i32])
    requires zeros { (n : ℕ) → coefficients sums.old n ≡ pos 0 }
    requires count { length sums.old ≡ length low.now + length high.now }
    requires low_count { length low.now ≡ 2 * half }
    requires middle_count { length middle.now ≡ 2 * half }
    requires high_least { half ≤ length high.now }
    requires high_most { length high.now ≤ 2 * half }
    requires low_bound { IsWithin (17 * 2 ^ 24) low.now }
    requires middle_bound { IsWithin (17 * 2 ^ 24) middle.now }
    requires high_bound { IsWithin (17 * 2 ^ 24) high.now }
    ensures { AreJoined sums.new half low.now middle.now high.now }
{
    add_at(sums, 0, 1, low);
    add_at(sums, half, 1, middle);
    add_at(sums, half, -1, low);
    add_at(sums, half, -1, high);
    add_at(sums, 2 * half, 1, high);
}

// The 2n sums of the convolution of two lists of n numbers.
pub(crate) fn convolution(
    alloc: Global,
    small: &[i32],
    long: &[i32],
) -> Result<Vec<i32>, OutOfMemory>
    requires same { length small.now ≡ length long.now }
    requires parts { AreParts small.now long.now }
    ensures count { IfOk result (λ v. vec_len v ≡ 2 * length long.now) }
    ensures sums { IfOk result (λ v. IsConvolution v.items small.now long.now) }
{
    let n = long.len();
    if n <= LEAST {
        return row_sums(alloc, small, long);
    }
    let half = n - n / 2;
    let (small_low, small_high) = small.split_at(half);
    let (long_low, long_high) = long.split_at(half);
    let low = convolution(alloc, small_low, long_low)?;
    let high = convolution(alloc, small_high, long_high)?;
    let small_sum = folded(alloc, small_low, small_high)?;
    let long_sum = folded(alloc, long_low, long_high)?;
    let middle = convolution(alloc, &small_sum, &long_sum)?;
    let mut sums = vec![in alloc; 0i32; 2 * n]?;
    join(&mut sums, half, &low, &middle, &high);
    Ok(sums)
}
