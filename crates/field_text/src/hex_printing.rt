//! Hex digits of bytes, written 32 at once.
//!
//! The plain form takes one byte b after another: the digit of b / 16, then that of b % 16, where
//! the digit of a value below 10 is the value + 48, and else the value + 87. Here 16 lanes do the
//! same at once: a shift by 4 gives the high values and a mask of 15 the low ones, one comparison
//! chooses between both sums, and the two vectors of digits are put one into the other by turns.
//!
//! Each lane is `hex_digit` (`digits_in_lanes` of proofs/HexPrinting.antt). A table of all bytes
//! shows that these are the digits of the crate `hex` (`high_digit`, `low_lane`), so the text is
//! that of `encode_lower` (`digits_encode`). What is behind the last 16 bytes is written in the
//! plain form.

ghost use Rattle.std.specs.Prelude.{◌≡◌, ◌+◌, ◌*◌, ◌<◌, ◌≤◌, ◌++◌, length, map, take};
ghost use Rattle.std.specs.Simd.Lanes.{chunk};
ghost use Rattle.hex.specs.Hex.{encode_lower};
ghost use Rattle.field_text.specs.HexLanes.{hex_digit, weave, digits_of};

use std::simd::prelude::*;

// The digits of 16 values below 16.
#[inline(always)]
fn digits(values: u8x16) -> u8x16
    requires { length values ≡ 16 }
    ensures { result ≡ map hex_digit values }
{
    values
        .simd_lt(u8x16::splat(10))
        .select(values + u8x16::splat(48), values + u8x16::splat(87))
}

#[inline(always)]
fn woven(a: u8x16, b: u8x16) -> (u8x16, u8x16)
    requires { (length a ≡ 16) × (length b ≡ 16) }
    ensures lanes { result.0 ++ result.1 ≡ weave a b }
    ensures sizes { (length result.0 ≡ 16) × (length result.1 ≡ 16) }
{
    a.interleave(b)
}

// Writes the digits of the 16 bytes at `at`, at their places in `room`.
#[inline(always)]
fn write_digits(bytes: &[u8], at: usize, room: &mut [u8])
    requires bytes { at + 16 ≤ length bytes.now }
    requires room { 2 * at + 32 ≤ length room.old }
    ensures size { length room.new ≡ length room.old }
    ensures digits { take (2 * at + 32) room.new
        ≡ take (2 * at) room.old ++ digits_of (chunk at 16 bytes.now) }
{
    let x = u8x16::from_slice(&bytes[at..]);
    let high = digits(x >> u8x16::splat(4));
    let low = digits(x & u8x16::splat(15));
    let (first, second) = woven(high, low);
    first.copy_to_slice(&mut room[2 * at..]);
    second.copy_to_slice(&mut room[2 * at + 16..]);
}

#[tactic(auto, unfolding(crate::specs::HexLanes::hex_digit))]
fn digit(value: u8) -> u8
    requires { value < 16 }
    ensures { result ≡ hex_digit value }
{
    if value < 10 { value + 48 } else { value + 87 }
}

/// Writes the hex digits of bytes over the front of room for them.
pub(crate) fn encode_front(bytes: &[u8], room: &mut [u8])
    requires { 2 * length bytes.now ≤ length room.old }
    ensures { take (2 * length bytes.now) room.new ≡ encode_lower bytes.now }
{
    let mut done = 0usize;
    'lanes: while bytes.len() - done >= 16 {
        write_digits(bytes, done, room);
        done += 16;
    }
    'rest: while done < bytes.len() {
        let byte = bytes[done];
        room[2 * done] = digit(byte / 16);
        room[2 * done + 1] = digit(byte % 16);
        done += 1;
    }
}
