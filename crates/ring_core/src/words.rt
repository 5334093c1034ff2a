//! The same numbers in words of other sizes.

ghost use Rattle.std.specs.Prelude.{◌≡◌, length, IfOk};
ghost use Rattle.ring_core.specs.Bounds.{IsWithin};

use std::alloc::{AllocError as OutOfMemory, Global};

/// The numbers of 8 bits, as a small element has them, in 16.
pub fn small_to_16(alloc: Global, list: &[i8]) -> Result<Vec<i16>, OutOfMemory>
    ensures { IfOk result (λ v. v.items ≡ list.now) }
{
    list.iter().map(|number| i16::from(*number)).collect(alloc)
}

/// The numbers of 8 bits, as a small element has them, in 32.
pub fn small_to_32(alloc: Global, list: &[i8]) -> Result<Vec<i32>, OutOfMemory>
    ensures { IfOk result (λ v. v.items ≡ list.now) }
{
    list.iter().map(|number| i32::from(*number)).collect(alloc)
}

/// The numbers of 16 bits, as an element of R/q has them, in 32.
pub fn long_to_32(alloc: Global, list: &[i16]) -> Result<Vec<i32>, OutOfMemory>
    ensures { IfOk result (λ v. v.items ≡ list.now) }
{
    list.iter().map(|number| i32::from(*number)).collect(alloc)
}

// Writes the same numbers in narrower words.
fn write_narrowed(narrow: &mut [i8], list: &[i16])
    requires same { length narrow.old ≡ length list.now }
    requires small { IsWithin 1 list.now }
    ensures { narrow.new ≡ list.now }
{
    for i in 0..list.len() {
        narrow[i] = list[i] as i8;
    }
}

/// Residues modulo 3 of 16 bits, in 8.
pub fn narrowed(alloc: Global, list: &[i16]) -> Result<Vec<i8>, OutOfMemory>
    requires { IsWithin 1 list.now }
    ensures { IfOk result (λ v. v.items ≡ list.now) }
{
    let mut narrow = vec![in alloc; 0i8; list.len()]?;
    write_narrowed(&mut narrow, list);
    Ok(narrow)
}
