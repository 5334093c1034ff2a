//! Hex digits, read 32 at once.
//!
//! The plain form takes one digit c after another: its value is c - 48 where that is below 10, else
//! c - 97 + 10 where c - 97 is below 6, else c is no digit; two values make the byte
//! high * 16 + low. Here 16 lanes do the same at once. A difference below 0 wraps to a large one,
//! so one comparison tests both ends of a range; 255 stands for no digit, so one mask of the lanes
//! from 16 up tests all; the values of 32 digits are parted into high and low ones and joined.
//!
//! Each lane is `hex_value` (`values_of` of proofs/HexReading.antt), which is below 16 exactly for a
//! digit (`digit_test`), and the pairs of values are the bytes that the crate `hex` decodes
//! (`pairs_bytes`). What is behind the last whole block is read in the plain form.

ghost use Rattle.std.specs.Prelude.{◌≡◌, ◌+◌, ◌*◌, ◌≤◌, ◌&&◌, ◌++◌, length, map, take, drop, true};
ghost use Rattle.std.specs.Prelude.{false, IfSome, IfNone};
ghost use Rattle.std.specs.List.{list_all};
ghost use Rattle.std.specs.Option.{SomeIff};
ghost use Rattle.std.specs.Simd.Lanes.{chunk};
ghost use Rattle.field_text.specs.Fields.{is_hex_digit};
ghost use Rattle.field_text.specs.HexLanes.{hex_value, byte_of, is_value, joined, pairs_of};

use std::simd::prelude::*;

// The values of 16 digits.
#[inline(always)]
fn values(digits: u8x16) -> u8x16
    requires { length digits ≡ 16 }
    ensures { result ≡ map hex_value digits }
{
    let decimal = digits - u8x16::splat(48);
    let letter = digits - u8x16::splat(97);
    let other = letter
        .simd_lt(u8x16::splat(6))
        .select(letter + u8x16::splat(10), u8x16::splat(255));
    decimal.simd_lt(u8x16::splat(10)).select(decimal, other)
}

// Whether 16 values are those of digits.
#[inline(always)]
fn are_values(values: u8x16) -> bool
    requires { length values ≡ 16 }
    ensures { result ≡ list_all is_value values }
{
    values.simd_ge(u8x16::splat(16)).to_bitmask() == 0
}

#[inline(always)]
fn are_all_values(a: u8x16, b: u8x16) -> bool
    requires { (length a ≡ 16) × (length b ≡ 16) }
    ensures { result ≡ (list_all is_value a && list_all is_value b) }
{
    are_values(a) && are_values(b)
}

// The bytes of 32 values.
#[inline(always)]
fn joined(a: u8x16, b: u8x16) -> u8x16
    requires { (length a ≡ 16) × (length b ≡ 16) }
    ensures { result ≡ joined (a ++ b) }
{
    let (high, low) = a.deinterleave(b);
    high * u8x16::splat(16) + low
}

// The bytes of the 32 digits at `at`, where all are digits.
#[inline(always)]
fn block(digits: &[u8], at: usize) -> Option<[u8; 16]>
    requires { at + 32 ≤ length digits.now }
    ensures { SomeIff result (list_all is_hex_digit (chunk at 32 digits.now) ≡ true)
        (pairs_of (chunk at 32 digits.now)) }
{
    let first = values(u8x16::from_slice(&digits[at..]));
    let second = values(u8x16::from_slice(&digits[at + 16..]));
    if are_all_values(first, second) {
        Some(joined(first, second).to_array())
    } else {
        None
    }
}

fn are_digits(text: &[u8]) -> bool
    ensures { result ≡ list_all is_hex_digit text.now }
{
    text.iter()
        .all(|digit| matches!(*digit, b'0'..=b'9' | b'a'..=b'f'))
}

/// Whether all bytes are digits.
pub(crate) fn all_hex_digits(text: &[u8]) -> bool
    ensures { result ≡ list_all is_hex_digit text.now }
{
    let mut done = 0usize;
    'lanes: while text.len() - done >= 32 {
        match block(text, done) {
            Some(_) => done += 32,
            None => return false,
        }
    }
    are_digits(&text[done..])
}

// The value of a digit, and 255 where it is none.
#[tactic(auto, unfolding(crate::specs::HexLanes::hex_value))]
fn value(digit: u8) -> u8
    ensures { result ≡ hex_value digit }
{
    let decimal = digit.wrapping_sub(48);
    let letter = digit.wrapping_sub(97);
    if decimal < 10 {
        decimal
    } else if letter < 6 {
        letter.wrapping_add(10)
    } else {
        255
    }
}

// The byte of two digits, where both are digits.
fn pair(high: u8, low: u8) -> Option<u8>
    ensures { SomeIff result ((is_hex_digit high && is_hex_digit low) ≡ true) (byte_of high low) }
{
    let high = value(high);
    let low = value(low);
    if high < 16 && low < 16 {
        Some(high * 16 + low)
    } else {
        None
    }
}

// Writes the bytes of whole blocks over the front of `room`, and tells how many bytes these are.
// `None` where some byte is no digit.
fn decode_blocks(digits: &[u8], room: &mut [u8]) -> Option<usize>
    requires { length digits.now ≡ 2 * length room.old }
    ensures size { length room.new ≡ length room.old }
    ensures none { IfNone result (list_all is_hex_digit digits.now ≡ false) }
    ensures within { IfSome result (λ done. done ≤ length room.old) }
    ensures good { IfSome result (λ done.
        list_all is_hex_digit digits.now ≡ list_all is_hex_digit (drop (2 * done) digits.now)) }
    ensures bytes { IfSome result (λ done.
        take done room.new ++ pairs_of (drop (2 * done) digits.now) ≡ pairs_of digits.now) }
{
    let mut done = 0usize;
    'lanes: while room.len() - done >= 16 {
        let bytes = block(digits, 2 * done)?;
        u8x16::from_array(bytes).copy_to_slice(&mut room[done..]);
        done += 16;
    }
    Some(done)
}

/// Writes the bytes of digits over `room`, and tells whether all were digits.
pub(crate) fn decode(digits: &[u8], room: &mut [u8]) -> bool
    requires { length digits.now ≡ 2 * length room.old }
    ensures size { length room.new ≡ length room.old }
    ensures good { result ≡ list_all is_hex_digit digits.now }
    ensures bytes { result ≡ true → room.new ≡ pairs_of digits.now }
{
    let Some(whole) = decode_blocks(digits, room) else {
        return false;
    };
    let mut done = whole;
    'rest: while done < room.len() {
        match pair(digits[2 * done], digits[2 * done + 1]) {
            Some(byte) => room[done] = byte,
            None => return false,
        }
        done += 1;
    }
    true
}
