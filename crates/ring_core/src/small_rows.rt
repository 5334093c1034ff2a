//! The convolution for R/3, which goes as that of `rows` does.
//!
//! Both factors are small, so that a sum is at most the number of rows, which fits 16 bits. So a
//! vector holds twice as many sums.

ghost use Rattle.std.specs.Prelude.{◌≡◌, ℕ, ℤ, pos, negsuc, ◌*◌, ◌^◌, ◌<◌, ◌≤◌, unsigned_abs, length};
ghost use Rattle.ring_core.specs.Bounds.{IsWithin};
ghost use Rattle.ring_core.specs.Product.{coefficients, conv};
ghost use Rattle.ring_core.specs.Rows.{AddsMultiple};

// Adds the row to the sums.
fn add_row(sums: &mut [i16], row: &[i8])
    requires same { length sums.old ≡ length row.now }
    requires row_small { IsWithin 1 row.now }
    requires sums_small { IsWithin (2 ^ 14) sums.old }
    ensures { AddsMultiple sums.old sums.new (pos 1) row.now }
{
    for j in 0..row.len() {
        sums[j] += i16::from(row[j]);
    }
}

// Takes the row from the sums.
fn subtract_row(sums: &mut [i16], row: &[i8])
    requires same { length sums.old ≡ length row.now }
    requires row_small { IsWithin 1 row.now }
    requires sums_small { IsWithin (2 ^ 14) sums.old }
    ensures { AddsMultiple sums.old sums.new (negsuc 0) row.now }
{
    for j in 0..row.len() {
        sums[j] -= i16::from(row[j]);
    }
}

// Adds `factor` times the row to the sums.
fn add_multiple(sums: &mut [i16], factor: i8, row: &[i8])
    requires same { length sums.old ≡ length row.now }
    requires factor_small { unsigned_abs factor ≤ 1 }
    requires row_small { IsWithin 1 row.now }
    requires sums_small { IsWithin (2 ^ 14) sums.old }
    ensures { AddsMultiple sums.old sums.new factor row.now }
{
    match factor {
        1 => add_row(sums, row),
        -1 => subtract_row(sums, row),
        _ => {}
    }
}

// Adds to zeros the products of the coefficients of `small` and `long`, each at the sum of its two
// places.
pub(crate) fn add_rows(sums: &mut [i16], small: &[i8], long: &[i8])
    requires same { length small.now ≡ length long.now }
    requires few { length long.now ≤ 1023 }
    requires double { length sums.old ≡ 2 * length long.now }
    requires zeros { (k : ℕ) → coefficients sums.old k ≡ pos 0 }
    requires small_small { IsWithin 1 small.now }
    requires long_small { IsWithin 1 long.now }
    ensures bound { IsWithin 1023 sums.new }
    ensures sums { (k : ℕ) → k < 2 * length long.now
        → coefficients sums.new k ≡ conv (coefficients small.now) (coefficients long.now) k }
{
    let n = long.len();
    for i in 0..n {
        add_multiple(&mut sums[i..i + n], small[i], long);
    }
}
