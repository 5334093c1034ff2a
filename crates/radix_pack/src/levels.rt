//! Encoding, level by level.
//!
//! The digits of a level stand in one slice. The digit that a pair becomes takes a place that was
//! read before, so the next level stands at the front of the same slice.

ghost use Rattle.std.specs.Prelude.{◌≡◌, ℕ, ◌+◌, ◌/◌, ◌<◌, ◌≤◌, ◌++◌, length, take, IfOk};
ghost use Rattle.radix_pack.specs.Radix.{bytes_in, radix_in, low_bytes, above_bytes, pair_written, pair_digit, level_bytes, next_digits, encode_in, AreDigits};

use byte_strings::{ByteList, PlainList};
use std::alloc::{AllocError as OutOfMemory, Global};

/// A value and its radix.
#[derive(Clone, Copy)]
pub(crate) struct Digit {
    pub(crate) value: u32,
    pub(crate) radix: u32,
}

// While the radix is at least `limit`, writes a low byte of the value. Gives the digit that is
// left.
fn write_low_bytes(out: &mut Vec<u8>, digit: Digit, limit: u32) -> Result<Digit, OutOfMemory>
    requires limit { 2 ≤ limit }
    requires two_turns { radix_in 2 limit digit.radix < limit }
    ensures bytes { IfOk result (λ _. out.new.items
        ≡ out.old.items ++ low_bytes (bytes_in 2 limit digit.radix) digit.value) }
    ensures left { IfOk result (λ left. left ≡ record {
      value = above_bytes (bytes_in 2 limit digit.radix) digit.value;
      radix = radix_in 2 limit digit.radix;
    }) }
{
    let mut left = digit;
    while left.radix >= limit {
        out.push((left.value % 256) as u8)?;
        left = Digit {
            value: left.value / 256,
            radix: left.radix.div_ceil(256),
        };
    }
    Ok(left)
}

// Writes the bytes of a pair of neighbours. Gives the digit that it becomes.
fn write_pair(out: &mut Vec<u8>, x: Digit, y: Digit) -> Result<Digit, OutOfMemory>
    requires x { x.value < x.radix }
    requires y { y.value < y.radix }
    requires x_radix { x.radix < 16384 }
    requires y_radix { y.radix < 16384 }
    ensures bytes { IfOk result (λ _. out.new.items ≡ out.old.items ++ pair_written x y) }
    ensures digit { IfOk result (λ left. left ≡ pair_digit x y) }
{
    let pair = Digit {
        value: x.value + y.value * x.radix,
        radix: x.radix * y.radix,
    };
    write_low_bytes(out, pair, 16384)
}

// Writes the bytes of a level, and puts the next level in front.
fn write_level(out: &mut Vec<u8>, digits: &mut [Digit]) -> Result<(), OutOfMemory>
    requires { AreDigits digits.old }
    ensures bytes { IfOk result (λ _. out.new.items ≡ out.old.items ++ level_bytes digits.old) }
    ensures next { IfOk result (λ _.
        take ((length digits.old + 1) / 2) digits.new ≡ next_digits digits.old) }
{
    let pairs = digits.len() / 2;
    for i in 0..pairs {
        digits[i] = write_pair(out, digits[2 * i], digits[2 * i + 1])?;
    }
    if digits.len() % 2 == 1 {
        digits[pairs] = digits[2 * pairs];
    }
    Ok(())
}

// Writes the bytes of all levels.
fn write_levels(out: &mut Vec<u8>, digits: &mut [Digit]) -> Result<(), OutOfMemory>
    requires some { 0 < length digits.old }
    requires digits { AreDigits digits.old }
    ensures { IfOk result (λ _. (levels : ℕ) → length digits.old ≤ levels
        → out.new.items ≡ out.old.items ++ encode_in levels digits.old) }
{
    if digits.len() == 1 {
        write_low_bytes(out, digits[0], 2)?;
        Ok(())
    } else {
        let next = digits.len().div_ceil(2);
        write_level(out, digits)?;
        write_levels(out, &mut digits[..next])
    }
}

// The bytes of these digits, which are overwritten.
pub(crate) fn encoded(alloc: Global, digits: &mut [Digit]) -> Result<ByteList, OutOfMemory>
    requires some { 0 < length digits.old }
    requires digits { AreDigits digits.old }
    ensures { IfOk result (λ b. b ≡ encode_in (length digits.old) digits.old) }
{
    let mut out = Vec::new(alloc);
    write_levels(&mut out, digits)?;
    Ok(PlainList::from_vec(out))
}
