//! Decoding: down the levels by their radices, and up again by their bytes.
//!
//! The radices of the levels stand one after the other in one scratch, and the values of all levels
//! in one slice, where those of the next level stand at the back.

ghost use Rattle.std.specs.Prelude.{◌≡◌, ℕ, ◌+◌, ◌*◌, ◌/◌, ◌^◌, ◌<◌, ◌≤◌, length, drop, IfOk};
ghost use Rattle.radix_pack.specs.Radix.{bytes_in, radix_in, pair_bytes, pair_radix, last_bytes, number, level_count, next_radices, length_in, parted, decode_in, AreRadices};

use std::alloc::{AllocError as OutOfMemory, Global};

// How many bytes a radix writes while it is at least `limit`.
fn bytes_above(radix: u32, limit: u32) -> usize
    requires limit { 2 ≤ limit }
    requires two_turns { radix_in 2 limit radix < limit }
    ensures { result ≡ bytes_in 2 limit radix }
{
    let mut left = radix;
    let mut count = 0;
    while left >= limit {
        left = left.div_ceil(256);
        count += 1;
    }
    count
}

// What is left of a radix that writes bytes while it is at least `limit`.
fn radix_left(radix: u32, limit: u32) -> u32
    requires limit { 2 ≤ limit }
    requires two_turns { radix_in 2 limit radix < limit }
    ensures { result ≡ radix_in 2 limit radix }
{
    let mut left = radix;
    while left >= limit {
        left = left.div_ceil(256);
    }
    left
}

// How many bytes a pair of neighbours with these radices writes.
fn pair_count(m: u16, n: u16) -> usize
    requires first { m < 16384 }
    requires second { n < 16384 }
    ensures two { result ≤ 2 }
    ensures count { result ≡ pair_bytes m n }
{
    bytes_above(u32::from(m) * u32::from(n), 16384)
}

// How many bytes a level with these radices writes.
fn count_level(radices: &[u16]) -> usize
    requires radices { AreRadices radices.now }
    requires few { level_count radices.now < 2 ^ 64 }
    ensures { result ≡ level_count radices.now }
{
    let mut count = 0;
    for i in 0..radices.len() / 2 {
        count += pair_count(radices[2 * i], radices[2 * i + 1]);
    }
    count
}

// Writes the radices of the next level.
fn write_next_radices(radices: &[u16], next: &mut [u16])
    requires radices { AreRadices radices.now }
    requires room { length next.old ≡ (length radices.now + 1) / 2 }
    ensures { next.new ≡ next_radices radices.now }
{
    let pairs = radices.len() / 2;
    for i in 0..pairs {
        let radix = u32::from(radices[2 * i]) * u32::from(radices[2 * i + 1]);
        next[i] = radix_left(radix, 16384) as u16;
    }
    if radices.len() % 2 == 1 {
        next[pairs] = radices[2 * pairs];
    }
}

// The number of at most two bytes, low byte first.
fn number_of(bytes: &[u8]) -> u32
    requires { length bytes.now ≤ 2 }
    ensures small { result < 65536 }
    ensures number { result ≡ number bytes.now }
{
    match bytes {
        [low, high] => u32::from(*low) + 256 * u32::from(*high),
        [low] => u32::from(*low),
        _ => 0,
    }
}

// The number of a pair, from its bytes and the value that the next level gives.
fn number_below(bytes: &[u8], above: u16) -> u32
    requires { length bytes.now ≤ 2 }
    ensures { result ≡ number bytes.now + 256 ^ length bytes.now * above }
{
    let scale = match bytes.len() {
        0 => 1,
        1 => 256,
        _ => 65536,
    };
    number_of(bytes) + scale * u32::from(above)
}

// Makes the values of a level of its bytes and of the values of the next level, which stand at the
// back.
//
// The values of a pair take places that were read before, and an odd last value stays in its place.
fn widen(bytes: &[u8], radices: &[u16], values: &mut [u16])
    requires radices { AreRadices radices.now }
    requires count { length bytes.now ≡ level_count radices.now }
    requires room { length values.old ≡ length radices.now }
    ensures { values.new ≡ parted radices.now bytes.now (drop (length radices.now / 2) values.old) }
{
    let pairs = radices.len() / 2;
    let mut from = 0;
    for i in 0..pairs {
        let first = radices[2 * i];
        let second = radices[2 * i + 1];
        let to = from + pair_count(first, second);
        let whole = number_below(&bytes[from..to], values[pairs + i]);
        values[2 * i] = (whole % u32::from(first)) as u16;
        values[2 * i + 1] = (whole / u32::from(first) % u32::from(second)) as u16;
        from = to;
    }
}

// Writes the values that these bytes are the digits of, below these radices. The scratch takes the
// radices of the levels after this one.
fn decode_into(bytes: &[u8], radices: &[u16], scratch: &mut [u16], values: &mut [u16])
    requires some { 0 < length radices.now }
    requires radices { AreRadices radices.now }
    requires count { (levels : ℕ) × (length radices.now ≤ levels)
        × (length bytes.now ≡ length_in levels radices.now) }
    requires scratch { 2 * length radices.now ≤ length scratch.old }
    requires room { length values.old ≡ length radices.now }
    ensures { (levels : ℕ) → length radices.now ≤ levels
        → values.new ≡ decode_in levels radices.now bytes.now }
{
    if radices.len() == 1 {
        values[0] = (number_of(bytes) % u32::from(radices[0])) as u16;
    } else {
        let count = count_level(radices);
        let pairs = radices.len() / 2;
        let (next, rest) = scratch.split_at_mut(radices.len().div_ceil(2));
        write_next_radices(radices, next);
        decode_into(&bytes[count..], next, rest, &mut values[pairs..]);
        widen(&bytes[..count], radices, values);
    }
}

// The values that these bytes are the digits of, below these radices.
//
// It takes the memory of the values, and twice as much for the radices of all levels.
pub(crate) fn decoded(alloc: Global, bytes: &[u8], radices: &[u16]) -> Result<Vec<u16>, OutOfMemory>
    requires some { 0 < length radices.now }
    requires radices { AreRadices radices.now }
    requires count { (levels : ℕ) × (length radices.now ≤ levels)
        × (length bytes.now ≡ length_in levels radices.now) }
    ensures { IfOk result (λ v. (levels : ℕ) → length radices.now ≤ levels
        → v.items ≡ decode_in levels radices.now bytes.now) }
{
    let mut scratch = vec![in alloc; 0u16; 2 * radices.len()]?;
    let mut values = vec![in alloc; 0u16; radices.len()]?;
    decode_into(bytes, radices, &mut scratch, &mut values);
    Ok(values)
}
