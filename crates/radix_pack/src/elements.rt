//! The codings of elements of R/q: of any, and of those whose coefficients are multiples of 3.
//!
//! They are one coding, which counts from -(q - 1) / 2 on in steps of 1 or of 3. What takes a step is
//! inlined, so that it divides by a constant.

ghost use Rattle.std.specs.Prelude.{◌≡◌, ◌+◌, ◌-◌, ◌*◌, ◌/◌, ◌%◌, ◌<◌, ◌≤◌, unsigned_abs, length, map, replicate, IfOk};
ghost use Rattle.ring_core.specs.Bounds.{IsWithin};
ghost use Rattle.radix_pack.specs.Codings.{shifted, rq_length, rq_encode, rq_decode};
ghost use Rattle.radix_pack.specs.Codings.{rounded_length, rounded_encode, rounded_decode, AreMultiplesOf3};
ghost use Rattle.radix_pack.specs.Steps.{step_radix, step_digit, step_back, step_length, step_encode, step_decode, IsStep};

use crate::levels::{Digit, encoded};
use crate::parts::decoded;
use byte_strings::ByteList;
use ring_core::{Params, Rq};
use std::alloc::{AllocError as OutOfMemory, Global};

// q
fn modulus<S: Params>() -> u16
    ensures small { result < 8192 }
    ensures modulus { result ≡ S.set.q }
{
    S::Q as u16
}

// c + (q - 1) / 2
fn shifted(coefficient: i16, modulus: u16) -> u32
    requires odd { modulus % 2 ≡ 1 }
    requires small { modulus < 8192 }
    requires within { unsigned_abs coefficient ≤ (modulus - 1) / 2 }
    ensures below { result < modulus }
    ensures value { result ≡ shifted modulus coefficient }
{
    (i32::from(coefficient) + i32::from((modulus - 1) / 2)) as u32
}

// (q + step - 1) / step
fn step_radix(modulus: u16, step: u16) -> u16
    requires small { modulus < 8192 }
    requires step { IsStep step }
    ensures { result ≡ step_radix step modulus }
{
    (modulus + (step - 1)) / step
}

// The digit of each coefficient, with its radix.
#[inline(always)]
fn digits_of(
    alloc: Global,
    coefficients: &[i16],
    modulus: u16,
    step: u16,
) -> Result<Vec<Digit>, OutOfMemory>
    requires odd { modulus % 2 ≡ 1 }
    requires small { modulus < 8192 }
    requires within { IsWithin ((modulus - 1) / 2) coefficients.now }
    requires step { IsStep step }
    ensures { IfOk result (λ v. v.items ≡ map (step_digit step modulus) coefficients.now) }
{
    let radix = u32::from(step_radix(modulus, step));
    let mut digits = Vec::with_capacity(alloc, coefficients.len())?;
    for coefficient in coefficients {
        digits.push(Digit {
            value: shifted(*coefficient, modulus) / u32::from(step),
            radix,
        })?;
    }
    Ok(digits)
}

#[inline(always)]
fn step_encode<S: Params>(alloc: Global, a: &Rq<S>, step: u16) -> Result<ByteList, OutOfMemory>
    requires { IsStep step }
    ensures bytes { IfOk result (λ b. b ≡ step_encode step S.set a.now) }
    ensures count { IfOk result (λ b. length b ≡ step_length step S.set) }
{
    let mut digits = digits_of(alloc, a.as_slice(), modulus::<S>(), step)?;
    encoded(alloc, &mut digits)
}

/// The coding of an element of R/q (NTRU Prime round 3, Rq encoding): 1158 bytes for sntrup761, and
/// 1322 for sntrup857.
pub fn rq_encode<S: Params>(alloc: Global, a: &Rq<S>) -> Result<ByteList, OutOfMemory>
    ensures bytes { IfOk result (λ b. b ≡ rq_encode S.set a.now) }
    ensures count { IfOk result (λ b. length b ≡ rq_length S.set) }
{
    step_encode(alloc, a, 1)
}

/// The coding of an element whose coefficients are multiples of 3 (NTRU Prime round 3, Rounded
/// encoding): 1007 bytes for sntrup761, and 1152 for sntrup857.
pub fn rounded_encode<S: Params>(alloc: Global, a: &Rq<S>) -> Result<ByteList, OutOfMemory>
    requires { AreMultiplesOf3 a.now }
    ensures bytes { IfOk result (λ b. b ≡ rounded_encode S.set a.now) }
    ensures count { IfOk result (λ b. length b ≡ rounded_length S.set) }
{
    step_encode(alloc, a, 3)
}

// The coefficient of a digit.
fn coefficient_of(digit: u16, half: u16, step: u16) -> i32
    requires { IsStep step }
    ensures { result ≡ step_back step half digit }
{
    i32::from(step) * i32::from(digit) - i32::from(half)
}

// The coefficients of all digits.
#[inline(always)]
fn coefficients_of(
    alloc: Global,
    digits: &[u16],
    half: u16,
    step: u16,
) -> Result<Vec<i32>, OutOfMemory>
    requires { IsStep step }
    ensures { IfOk result (λ v. v.items ≡ map (step_back step half) digits.now) }
{
    digits
        .iter()
        .map(|digit| coefficient_of(*digit, half, step))
        .collect(alloc)
}

// The radices of all digits.
fn radices<S: Params>(alloc: Global, step: u16) -> Result<Vec<u16>, OutOfMemory>
    requires { IsStep step }
    ensures { IfOk result (λ v. v.items ≡ replicate S.set.p (step_radix step S.set.q)) }
{
    Ok(vec![in alloc; step_radix(modulus::<S>(), step); S::P]?)
}

#[inline(always)]
fn step_decode<S: Params>(alloc: Global, bytes: &[u8], step: u16) -> Result<Rq<S>, OutOfMemory>
    requires step { IsStep step }
    requires count { length bytes.now ≡ step_length step S.set }
    ensures { IfOk result (λ a. a ≡ step_decode step S.set bytes.now) }
{
    let radices = radices::<S>(alloc, step)?;
    let digits = decoded(alloc, bytes, &radices)?;
    let half = (modulus::<S>() - 1) / 2;
    let coefficients = coefficients_of(alloc, &digits, half, step)?;
    Rq::from_coefficients(alloc, &coefficients)
}

/// The element whose coding `bytes` are: 1158 bytes for sntrup761, and 1322 for sntrup857.
///
/// Every byte string of that length decodes, so several may decode to the same element.
pub fn rq_decode<S: Params>(alloc: Global, bytes: &[u8]) -> Result<Rq<S>, OutOfMemory>
    requires { length bytes.now ≡ rq_length S.set }
    ensures { IfOk result (λ a. a ≡ rq_decode S.set bytes.now) }
{
    step_decode(alloc, bytes, 1)
}

/// The element whose rounded coding `bytes` are: 1007 bytes for sntrup761, and 1152 for sntrup857.
/// Its coefficients are multiples of 3.
///
/// Every byte string of that length decodes, so several may decode to the same element.
pub fn rounded_decode<S: Params>(alloc: Global, bytes: &[u8]) -> Result<Rq<S>, OutOfMemory>
    requires { length bytes.now ≡ rounded_length S.set }
    ensures element { IfOk result (λ a. a ≡ rounded_decode S.set bytes.now) }
    ensures rounded { IfOk result (λ a. AreMultiplesOf3 a) }
{
    step_decode(alloc, bytes, 3)
}
