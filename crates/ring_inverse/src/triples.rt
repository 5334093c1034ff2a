//! Three times an element, by the whole numbers.

ghost use Rattle.std.specs.Prelude.{◌≡◌, pos, ◌*ℤ◌, IfOk};
ghost use Rattle.ring_inverse.specs.Reciprocals.{triple};

use std::alloc::{AllocError as OutOfMemory, Global};

fn three_times(number: i8) -> i16
    ensures { result ≡ pos 3 *ℤ number }
{
    3 * i16::from(number)
}

fn three_times_long(number: i16) -> i32
    ensures { result ≡ pos 3 *ℤ number }
{
    3 * i32::from(number)
}

// Three times each number of a small element.
pub(crate) fn tripled(alloc: Global, list: &[i8]) -> Result<Vec<i16>, OutOfMemory>
    ensures { IfOk result (λ v. v.items ≡ triple list.now) }
{
    list.iter()
        .map(|number| three_times(*number))
        .collect(alloc)
}

// Three times each number of an element.
pub(crate) fn tripled_long(alloc: Global, list: &[i16]) -> Result<Vec<i32>, OutOfMemory>
    ensures { IfOk result (λ v. v.items ≡ triple list.now) }
{
    list.iter()
        .map(|number| three_times_long(*number))
        .collect(alloc)
}
