//! The small coding: each coefficient plus 1 as two bits, four a byte, low bits first.

ghost use Rattle.std.specs.Prelude.{◌≡◌, ◌↔◌, ◌+◌, ◌*◌, ◌^◌, ◌<◌, ◌≤◌, IsTrue, length, IfOk, IfSome};
ghost use Rattle.ring_core.specs.Bounds.{IsWithin};
ghost use Rattle.radix_pack.specs.Codings.{small_length, two_bits, four_coefficients, small_encode, bits_at, small_decode, IsMalformed};

use byte_strings::{ByteList, PlainList};
use ring_core::{Params, Small};
use std::alloc::{AllocError as OutOfMemory, Global};

// The two bits of the coefficient at place k, and 0 past the last one.
fn two_bits_of(coefficients: &[i8], k: usize) -> u8
    requires { IsWithin 1 coefficients.now }
    ensures two { result < 4 }
    ensures bits { result ≡ two_bits coefficients.now k }
{
    if k < coefficients.len() {
        (coefficients[k] + 1) as u8
    } else {
        0
    }
}

// The byte of the four coefficients from place 4 i on.
fn byte_of(coefficients: &[i8], i: usize) -> u8
    requires small { IsWithin 1 coefficients.now }
    requires few { 4 * i + 3 < 2 ^ 64 }
    ensures { result ≡ four_coefficients coefficients.now i }
{
    let low = two_bits_of(coefficients, 4 * i) + 4 * two_bits_of(coefficients, 4 * i + 1);
    let high = two_bits_of(coefficients, 4 * i + 2) + 4 * two_bits_of(coefficients, 4 * i + 3);
    low + 16 * high
}

fn small_bytes(alloc: Global, coefficients: &[i8]) -> Result<Vec<u8>, OutOfMemory>
    requires { IsWithin 1 coefficients.now }
    ensures { IfOk result (λ v. v.items ≡ small_encode (length coefficients.now) coefficients.now) }
{
    let count = coefficients.len().div_ceil(4);
    let mut bytes = Vec::with_capacity(alloc, count)?;
    for i in 0..count {
        bytes.push(byte_of(coefficients, i))?;
    }
    Ok(bytes)
}

/// The small coding of an element (NTRU Prime round 3, Small encoding): (p + 3) / 4 bytes.
pub fn small_encode<S: Params>(alloc: Global, a: &Small<S>) -> Result<ByteList, OutOfMemory>
    ensures bytes { IfOk result (λ b. b ≡ small_encode S.set.p a.now) }
    ensures count { IfOk result (λ b. length b ≡ small_length S.set.p) }
{
    Ok(PlainList::from_vec(small_bytes(alloc, a.as_slice())?))
}

// The two bits at place k.
fn bits_of(bytes: &[u8], k: usize) -> u8
    requires { k < 4 * length bytes.now }
    ensures two { result < 4 }
    ensures bits { result ≡ bits_at bytes.now k }
{
    let byte = bytes[k / 4];
    match k % 4 {
        0 => byte % 4,
        1 => byte / 4 % 4,
        2 => byte / 16 % 4,
        _ => byte / 64,
    }
}

// Whether no element of so many coefficients encodes to these bytes. They may be a secret key's, and
// where a bad digit stands is no one's business: each digit is looked at, whatever the others are.
fn is_malformed(bytes: &[u8], degree: usize) -> bool
    requires { length bytes.now < 2 ^ 61 }
    ensures { IsTrue result ↔ IsMalformed degree bytes.now }
{
    let mut found = false;
    for k in 0..4 * bytes.len() {
        let bits = bits_of(bytes, k);
        found |= (bits == 3) | ((k >= degree) & (bits != 0));
    }
    found
}

fn small_coefficients(alloc: Global, bytes: &[u8], degree: usize) -> Result<Vec<i8>, OutOfMemory>
    requires enough { degree ≤ 4 * length bytes.now }
    ensures { IfOk result (λ v. v.items ≡ small_decode degree bytes.now) }
{
    let mut coefficients = Vec::with_capacity(alloc, degree)?;
    for k in 0..degree {
        coefficients.push(bits_of(bytes, k) as i8 - 1)?;
    }
    Ok(coefficients)
}

/// The element whose small coding `bytes` are, of which there are (p + 3) / 4.
///
/// `None` exactly where no element encodes to them: some two bits are the digit 3, or a spare bit
/// past the last coefficient is not 0.
pub fn small_decode<S: Params>(alloc: Global, bytes: &[u8]) -> Result<Option<Small<S>>, OutOfMemory>
    requires { length bytes.now ≡ small_length S.set.p }
    ensures none { IfOk result (λ a. (a ≡ None) ↔ IsMalformed S.set.p bytes.now) }
    ensures some { IfOk result (λ a. IfSome a (λ s. s ≡ small_decode S.set.p bytes.now)) }
{
    if is_malformed(bytes, S::P) {
        return Ok(None);
    }
    let coefficients = small_coefficients(alloc, bytes, S::P)?;
    Ok(Some(Small::from_coefficients(alloc, &coefficients)?))
}
