//! Why a text was not read.

ghost use Rattle.std.specs.Prelude.{◌≡◌};
ghost use Rattle.field_text.specs.declared.faults.ReadBatchFault.TheVariants.{OutOfMemory};

use crate::reasons::Reason;
use std::alloc::AllocError;

/// The first bad line of a text, numbered from 1, and its first reason. An input that is too large
/// has line 0.
#[derive(Clone, Copy, Debug, PartialEq, Eq)]
pub struct BadBatch {
    pub line: u32,
    pub reason: Reason,
}

/// Why there is no plan.
#[derive(Debug, Drop)]
pub enum ReadBatchFault {
    /// The text is not a batch.
    Bad(BadBatch),
    /// There is no memory for the plan.
    OutOfMemory,
}

impl From<AllocError> for ReadBatchFault {
    ghost from_gives = { λ _ fault. fault ≡ OutOfMemory };

    fn from(_e: AllocError) -> ReadBatchFault {
        ReadBatchFault::OutOfMemory
    }
}
