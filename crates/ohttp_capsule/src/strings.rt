//! Byte strings in memory of their own.

ghost use Rattle.std.specs.Prelude.{◌≡◌, ◌++◌, IfOk};

use byte_strings::{ByteList, PlainList};
use std::alloc::{AllocError as OutOfMemory, Global};

/// Three strings, one behind the other.
pub(crate) fn joined_three(
    alloc: Global,
    first: &[u8],
    second: &[u8],
    third: &[u8],
) -> Result<ByteList, OutOfMemory>
    ensures { IfOk result (λ b. b ≡ first.now ++ second.now ++ third.now) }
{
    let mut bytes = Vec::new(alloc);
    bytes.extend_from_slice(first)?;
    bytes.extend_from_slice(second)?;
    bytes.extend_from_slice(third)?;
    Ok(PlainList::from_vec(bytes))
}
