//! A comparison and a choice whose course depends on no byte.
//!
//! Whether all bytes of an encapsulation agree, and how many do, is what recovers a key of NTRU
//! Prime by chosen ciphertexts; so every byte is compared, both arms are made, and a mask chooses.
//! The compiler undoes such code where it can: it ends a comparison of slices at the first
//! difference, and makes a jump of a mask when it sees the condition that the mask was made of, in
//! a loop above all. Hence vectors in plain sight, none of them left over, and functions that are
//! not inlined: what makes the mask, and what is handed it and knows nothing of it but its bits.

ghost use Rattle.std.specs.Prelude.{◌≡◌, ◌≢◌, ◌↔◌, ◌⊎◌, ◌+◌, ◌%◌, ◌≤◌, length, take, drop};

use std::simd::prelude::*;

// The differences of 16 bytes of two strings, or-ed.
#[inline(always)]
fn block_difference(first: &[u8], second: &[u8], at: usize) -> u8
    requires first { at + 16 ≤ length first.now }
    requires second { at + 16 ≤ length second.now }
    ensures { (result ≡ 0) ↔ (take 16 (drop at first.now) ≡ take 16 (drop at second.now)) }
{
    (u8x16::from_slice(&first[at..]) ^ u8x16::from_slice(&second[at..])).reduce_or()
}

// The differences of all bytes of two strings, or-ed: 0 where the strings are one. The last block
// ends with the last byte, and overlaps the block before it.
#[inline(never)]
pub(crate) fn difference(first: &[u8], second: &[u8]) -> u8
    requires same { length first.now ≡ length second.now }
    requires long { 16 ≤ length first.now }
    ensures { (result ≡ 0) ↔ (first.now ≡ second.now) }
{
    let mut found = 0u8;
    let blocks = first.len().div_ceil(16);
    for block in 0..blocks {
        let at = (16 * block).min(first.len() - 16);
        found |= block_difference(first, second, at);
    }
    found
}

// All bits where there is no difference, and else none.
#[inline(never)]
pub(crate) fn mask_of(difference: u8) -> u8
    ensures all { difference ≡ 0 → result ≡ 255 }
    ensures none { difference ≢ 0 → result ≡ 0 }
{
    (u16::from(difference).wrapping_sub(1) >> 8) as u8
}

// Chooses the first string where the mask has all bits, and the second one where it has none.
#[inline(never)]
pub(crate) fn choose(mask: u8, first: &[u8], second: &[u8], chosen: &mut [u8])
    requires mask { (mask ≡ 255) ⊎ (mask ≡ 0) }
    requires first { length first.now ≡ length chosen.old }
    requires second { length second.now ≡ length chosen.old }
    requires whole { length chosen.old % 16 ≡ 0 }
    ensures all { mask ≡ 255 → chosen.new ≡ first.now }
    ensures none { mask ≡ 0 → chosen.new ≡ second.now }
{
    for block in 0..chosen.len() / 16 {
        let at = 16 * block;
        let x = u8x16::from_slice(&first[at..]);
        let y = u8x16::from_slice(&second[at..]);
        (y ^ ((x ^ y) & u8x16::splat(mask))).copy_to_slice(&mut chosen[at..]);
    }
}
