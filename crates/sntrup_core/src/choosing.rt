//! A choice of polynomials whose course depends on no coefficient.
//!
//! Whether what was decrypted is short is what recovers a key of NTRU Prime by chosen ciphertexts;
//! so both polynomials are made, and a mask chooses. The compiler makes a jump of a mask when it
//! sees the condition that it was made of, and leaves jumps in what is left over of a loop in
//! vectors. So the mask is made in a function that isn't inlined, and handed to another one, which
//! knows nothing of it but its bits; and vectors are whole, with zeros behind the coefficients.

ghost use Rattle.std.specs.Prelude.{◌≡◌, ◌≢◌, ◌⊎◌, ◌%◌, ◌≤◌, pos, negsuc, length, take};
ghost use Rattle.ring_core.specs.Bounds.{IsWithin};

use std::simd::prelude::*;

// All bits where the two weights are one, and else none.
#[inline(never)]
pub(crate) fn mask_of(weight: usize, w: usize) -> i8
    ensures all { weight ≡ w → result ≡ negsuc 0 }
    ensures none { weight ≢ w → result ≡ pos 0 }
{
    let difference = weight.wrapping_sub(w) as u128;
    -((difference.wrapping_sub(1) >> 127) as i8)
}

// Chooses the first list where the mask has all bits, and the second where it has none.
#[inline(never)]
fn choose(mask: i8, first: &[i8], second: &[i8], chosen: &mut [i8])
    requires mask { (mask ≡ negsuc 0) ⊎ (mask ≡ pos 0) }
    requires first { length first.now ≡ length chosen.old }
    requires second { length second.now ≡ length chosen.old }
    requires first_small { IsWithin 1 first.now }
    requires second_small { IsWithin 1 second.now }
    requires whole { length chosen.old % 16 ≡ 0 }
    ensures all { mask ≡ negsuc 0 → chosen.new ≡ first.now }
    ensures none { mask ≡ pos 0 → chosen.new ≡ second.now }
{
    for block in 0..chosen.len() / 16 {
        let at = 16 * block;
        let x = i8x16::from_slice(&first[at..]);
        let y = i8x16::from_slice(&second[at..]);
        (y ^ ((x ^ y) & i8x16::splat(mask))).copy_to_slice(&mut chosen[at..]);
    }
}

// The list, with zeros behind it.
fn padded(list: &[i8]) -> [i8; 1024]
    requires few { length list.now ≤ 1024 }
    requires small { IsWithin 1 list.now }
    ensures front { take (length list.now) result ≡ list.now }
    ensures small { IsWithin 1 result }
{
    let mut padded = [0i8; 1024];
    padded[..list.len()].copy_from_slice(list);
    padded
}

// The list becomes the other one where the mask has all bits, and stays where it has none.
pub(crate) fn choose_list(mask: i8, other: &[i8], list: &mut [i8])
    requires mask { (mask ≡ negsuc 0) ⊎ (mask ≡ pos 0) }
    requires same { length other.now ≡ length list.old }
    requires few { length list.old ≤ 1024 }
    requires other_small { IsWithin 1 other.now }
    requires list_small { IsWithin 1 list.old }
    ensures all { mask ≡ negsuc 0 → list.new ≡ other.now }
    ensures none { mask ≡ pos 0 → list.new ≡ list.old }
{
    let mut chosen = [0i8; 1024];
    choose(mask, &padded(other), &padded(list), &mut chosen);
    list.copy_from_slice(&chosen[..list.len()]);
}
