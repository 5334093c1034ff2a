//! Sums to which multiples of lists are added.

ghost use Rattle.std.specs.Prelude.{◌≡◌, ℕ, ℤ, pos, ◌+◌, ◌*◌, ◌^◌, ◌<◌, ◌≤◌, ◌+ℤ◌, ◌*ℤ◌, unsigned_abs, length, vec_len, IfOk};
ghost use Rattle.ring_core.specs.Product.{coefficients};
ghost use Rattle.ring_core.specs.Rows.{AddsMultiple};
ghost use Rattle.ring_karatsuba.specs.Sums.{Adds, AreParts, Fits, IsConvolution};

use std::alloc::{AllocError as OutOfMemory, Global};

// The sum and `factor` times the number.
fn with_term(sum: i32, factor: i32, number: i32) -> i32
    requires { unsigned_abs sum + unsigned_abs (factor *ℤ number) < 2 ^ 31 }
    ensures { result ≡ sum +ℤ (factor *ℤ number) }
{
    sum + factor * number
}

// Adds `factor` times each number of the list to the sum at its place.
fn add_multiple(sums: &mut [i32], factor: i32, list: &[i32])
    requires same { length sums.old ≡ length list.now }
    requires fits { (n : ℕ) → unsigned_abs (coefficients sums.old n)
        + unsigned_abs (factor *ℤ coefficients list.now n) < 2 ^ 31 }
    ensures { AddsMultiple sums.old sums.new factor list.now }
{
    for j in 0..list.len() {
        sums[j] = with_term(sums[j], factor, list[j]);
    }
}

// Adds `factor` times the list from x^k on.
pub(crate) fn add_at(sums: &mut [i32], k: usize, factor: i32, list: &[i32])
    requires place { k + length list.now ≤ length sums.old }
    requires fits { Fits sums.old k factor list.now }
    ensures { Adds sums.old sums.new k factor list.now }
{
    add_multiple(&mut sums[k..k + list.len()], factor, list);
}

// Adds to zeros the products of the coefficients of two lists, row by row.
fn add_rows(sums: &mut [i32], small: &[i32], long: &[i32])
    requires same { length small.now ≡ length long.now }
    requires few { length long.now ≤ 32 }
    requires double { length sums.old ≡ 2 * length long.now }
    requires zeros { (n : ℕ) → coefficients sums.old n ≡ pos 0 }
    requires parts { AreParts small.now long.now }
    ensures { IsConvolution sums.new small.now long.now }
{
    for i in 0..small.len() {
        add_at(sums, i, small[i], long);
    }
}

// The sums of the convolution of two short lists.
pub(crate) fn row_sums(alloc: Global, small: &[i32], long: &[i32]) -> Result<Vec<i32>, OutOfMemory>
    requires same { length small.now ≡ length long.now }
    requires few { length long.now ≤ 32 }
    requires parts { AreParts small.now long.now }
    ensures count { IfOk result (λ v. vec_len v ≡ 2 * length long.now) }
    ensures sums { IfOk result (λ v. IsConvolution v.items small.now long.now) }
{
    let mut sums = vec![in alloc; 0i32; 2 * long.len()]?;
    add_rows(&mut sums, small, long);
    Ok(sums)
}
