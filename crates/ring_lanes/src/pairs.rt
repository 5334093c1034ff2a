//! The convolution of two small lists, two sums in one number.
//!
//! The plain form: sum k is that of small[i] * long[k - i] over all i, from -1023 to 1023. Here a
//! number holds two neighbouring sums, the first plus 2048 times the second: sums of products of
//! pairs, each the coefficient of the long factor at a place plus 2048 times the next one. No first
//! sum reaches into the second. Only every second pair of sums is wanted. For it the factors at even
//! places meet the pairs that begin at even places, and those at odd places the others. So two
//! convolutions of half the length give all sums, at half the work (`conv_pairs` of the proofs).

ghost use Rattle.std.specs.Prelude.{◌≡◌, ℕ, ℤ, pos, ◌+◌, ◌*◌, ◌/◌, ◌%◌, ◌^◌, ◌<◌, ◌≤◌, ◌+ℤ◌, ◌*ℤ◌, unsigned_abs, length, vec_len, IfOk};
ghost use Rattle.ring_core.specs.Bounds.{IsWithin};
ghost use Rattle.ring_core.specs.Product.{Series, coefficients, conv};
ghost use Rattle.ring_core.specs.Rows.{shifted};

use crate::convolution::convolution;
use crate::padding::padded;
use ring_core::words::small_to_16;
use std::alloc::{AllocError as OutOfMemory, Global};

// Writes every second number of the list, from place `from` on.
fn write_second(half: &mut [i16], list: &[i16], from: usize)
    requires count { length list.now ≡ 2 * length half.old }
    requires from { from ≤ 1 }
    ensures { (k : ℕ) → coefficients half.new k ≡ coefficients list.now (2 * k + from) }
{
    for k in 0..half.len() {
        half[k] = list[2 * k + from];
    }
}

// Every second number of the list, from place `from` on.
fn second(alloc: Global, list: &[i16], from: usize) -> Result<Vec<i16>, OutOfMemory>
    requires even { length list.now % 2 ≡ 0 }
    requires from { from ≤ 1 }
    ensures count { IfOk result (λ v. vec_len v ≡ length list.now / 2) }
    ensures places { IfOk result (λ v. (k : ℕ)
        → coefficients v.items k ≡ coefficients list.now (2 * k + from)) }
{
    let mut half = vec![in alloc; 0i16; list.len() / 2]?;
    write_second(&mut half, list, from);
    Ok(half)
}

// Adds 2048 times the second numbers to the first ones.
fn join(first: &mut [i16], second: &[i16])
    requires same { length first.old ≡ length second.now }
    requires first_small { IsWithin 1 first.old }
    requires second_small { IsWithin 1 second.now }
    ensures { (k : ℕ) → coefficients first.new k
        ≡ coefficients first.old k +ℤ (pos 2048 *ℤ coefficients second.now k) }
{
    for k in 0..first.len() {
        first[k] += 2048 * second[k];
    }
}

// The second of the two sums that a number holds.
fn second_sum(number: i32) -> i32
    requires { unsigned_abs number ≤ 2 ^ 23 }
    ensures bound { unsigned_abs result ≤ 4097 }
    ensures sum { (first second : ℤ) → unsigned_abs first ≤ 1023
        → number ≡ first +ℤ (pos 2048 *ℤ second) → result ≡ second }
{
    (number + 8_389_632) / 2048 - 4096
}

// Writes the sums that the numbers hold, each of which is an even and an odd part.
fn write_apart(sums: &mut [i32], even: &[i32], odd: &[i32])
    requires whole { length sums.old % 2 ≡ 0 }
    requires room { length sums.old ≤ 2 * length even.now }
    requires same { length odd.now ≡ length even.now }
    requires even_small { IsWithin (2 ^ 22) even.now }
    requires odd_small { IsWithin (2 ^ 22) odd.now }
    ensures { (c : Series) → ((k : ℕ) → unsigned_abs (c k) ≤ 1023)
        → ((k : ℕ) → k < length even.now → coefficients even.now k +ℤ coefficients odd.now k
        ≡ c (2 * k) +ℤ (pos 2048 *ℤ c (2 * k + 1)))
        → (k : ℕ) → k < length sums.old → coefficients sums.new k ≡ c k }
{
    for k in 0..sums.len() / 2 {
        let number = even[k] + odd[k];
        let second = second_sum(number);
        sums[2 * k] = number - 2048 * second;
        sums[2 * k + 1] = second;
    }
}

// The pairs of neighbouring coefficients: that before a place plus 2048 times that at it.
fn pairs(alloc: Global, list: &[i8], count: usize) -> Result<Vec<i16>, OutOfMemory>
    requires room { length list.now < count }
    requires small { IsWithin 1 list.now }
    ensures count { IfOk result (λ v. vec_len v ≡ count) }
    ensures places { IfOk result (λ v. (k : ℕ) → coefficients v.items k
        ≡ shifted 1 (coefficients list.now) k +ℤ (pos 2048 *ℤ coefficients list.now k)) }
{
    let list = small_to_16(alloc, list)?;
    let mut first = padded(alloc, &list, 1, count)?;
    join(&mut first, &padded(alloc, &list, 0, count)?);
    Ok(first)
}

// The 2n sums of the convolution of two small lists, of n coefficients each.
pub(crate) fn small_convolution(
    alloc: Global,
    small: &[i8],
    long: &[i8],
) -> Result<Vec<i32>, OutOfMemory>
    requires same { length small.now ≡ length long.now }
    requires few { length long.now ≤ 1023 }
    requires small_small { IsWithin 1 small.now }
    requires long_small { IsWithin 1 long.now }
    ensures count { IfOk result (λ v. vec_len v ≡ 2 * length long.now) }
    ensures bound { IfOk result (λ v. IsWithin (2 ^ 22) v.items) }
    ensures sums { IfOk result (λ v. (k : ℕ) → k < 2 * length long.now
        → coefficients v.items k ≡ conv (coefficients small.now) (coefficients long.now) k) }
{
    let n = long.len();
    let count = 2 * (n / 2 + 1);
    let factors = padded(alloc, &small_to_16(alloc, small)?, 0, count)?;
    let pairs = pairs(alloc, long, count)?;
    let even = convolution(
        alloc,
        &second(alloc, &factors, 0)?,
        &second(alloc, &pairs, 1)?,
    )?;
    let odd = convolution(
        alloc,
        &second(alloc, &factors, 1)?,
        &second(alloc, &pairs, 0)?,
    )?;
    let mut sums = vec![in alloc; 0i32; 2 * n]?;
    write_apart(&mut sums, &even, &odd);
    Ok(sums)
}
