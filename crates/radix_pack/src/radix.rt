//! Digits below any radices as bytes (NTRU Prime round 3, Encode and Decode).

ghost use Rattle.std.specs.Prelude.{◌≡◌, ◌<◌, length, IfOk};
ghost use Rattle.radix_pack.specs.Radix.{encode, decode, encoded_length, with_radices, AreRadices, AreBelow};

use crate::levels::{Digit, encoded};
use crate::parts::decoded;
use byte_strings::{ByteList, PlainList};
use std::alloc::{AllocError as OutOfMemory, Global};

// The values with their radices.
fn digits_of(alloc: Global, values: &[u16], radices: &[u16]) -> Result<Vec<Digit>, OutOfMemory>
    requires { length values.now ≡ length radices.now }
    ensures { IfOk result (λ v. v.items ≡ with_radices values.now radices.now) }
{
    let mut digits = Vec::with_capacity(alloc, values.len())?;
    for i in 0..values.len() {
        digits.push(Digit {
            value: u32::from(values[i]),
            radix: u32::from(radices[i]),
        })?;
    }
    Ok(digits)
}

/// Encode (NTRU Prime round 3): the bytes of these digits, each below the radix at its place.
///
/// There is a radix, and each is from 1 to 16383. The number of bytes depends on the radices alone.
pub fn encode(alloc: Global, digits: &[u16], radices: &[u16]) -> Result<ByteList, OutOfMemory>
    requires some { 0 < length radices.now }
    requires radices { AreRadices radices.now }
    requires below { AreBelow digits.now radices.now }
    ensures bytes { IfOk result (λ b. b ≡ encode digits.now radices.now) }
    ensures count { IfOk result (λ b. length b ≡ encoded_length radices.now) }
{
    let mut digits = digits_of(alloc, digits, radices)?;
    encoded(alloc, &mut digits)
}

/// Digits, each below a radix of its own that stands elsewhere. Contracts see the list of them.
pub type DigitList = PlainList<u16>;

/// Decode (NTRU Prime round 3): the digits below these radices that `bytes` stand for.
///
/// There is a radix, and each is from 1 to 16383. Every byte string of the length that [`encode`]
/// gives for these radices decodes, so several may decode to the same digits. It takes the memory of
/// the digits, and a scratch of twice as much for the radices of all levels, which it gives back.
pub fn decode(alloc: Global, bytes: &[u8], radices: &[u16]) -> Result<DigitList, OutOfMemory>
    requires some { 0 < length radices.now }
    requires radices { AreRadices radices.now }
    requires count { length bytes.now ≡ encoded_length radices.now }
    ensures digits { IfOk result (λ d. d ≡ decode bytes.now radices.now) }
    ensures below { IfOk result (λ d. AreBelow d radices.now) }
{
    Ok(PlainList::from_vec(decoded(alloc, bytes, radices)?))
}
