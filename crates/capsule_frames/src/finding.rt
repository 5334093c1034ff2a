//! What an earlier line left, and refusals by their names.

ghost use Rattle.std.specs.Prelude.{◌≡◌, ◌≢◌, Err, take, IfOk, OnOk, option_copied};
ghost use Rattle.capsule_frames.specs.Lines.{left_by, refusal_of};

use crate::replies::CapsuleRefusal;
use ohttp_capsule::CapsuleFault;
use std::alloc::AllocError as OutOfMemory;

/// The first results, so many or all.
pub(crate) fn first<T>(results: &[T], count: usize) -> &[T]
    ensures { result.now ≡ take count results.now }
{
    results.get(..count).unwrap_or(results)
}

/// What the line of this number left, where it wasn't refused.
pub(crate) fn left_by<T>(results: &[Result<T, CapsuleRefusal>], number: u32) -> Option<&T>
    ensures { option_copied result ≡ left_by results.now number }
{
    match results.get(number as usize) {
        Some(Ok(left)) => Some(left),
        _ => None,
    }
}

/// What becomes of a message that is refused, which want of memory isn't.
pub(crate) fn refused<T>(fault: CapsuleFault) -> Result<Result<T, CapsuleRefusal>, OutOfMemory>
    ensures refusal { IfOk result (λ r. r ≡ Err (refusal_of fault)) }
    ensures memory { OnOk result (fault ≢ CapsuleFault.OutOfMemory) }
{
    match fault {
        CapsuleFault::Short => Ok(Err(CapsuleRefusal::Short)),
        CapsuleFault::Header => Ok(Err(CapsuleRefusal::Header)),
        CapsuleFault::NonceSize => Ok(Err(CapsuleRefusal::NonceSize)),
        CapsuleFault::Failed => Ok(Err(CapsuleRefusal::Failed)),
        CapsuleFault::OutOfMemory => Err(OutOfMemory),
    }
}
