//! Why reading stops.

ghost use Rattle.std.specs.Prelude.{◌≡◌};
ghost use Rattle.result_lines.specs.declared.stop.Stop.TheVariants.{OutOfMemory};

use std::alloc::{AllocError, AllocFailed};

/// Why a result was not read to its end, or its replies not compared to theirs.
#[derive(Debug, Drop)]
pub enum Stop {
    /// There is no memory for what the line tells.
    OutOfMemory,
    /// The line of this number is missing, or is none that may stand there.
    Wrong(u32),
}

impl From<AllocError> for Stop {
    ghost from_gives = { λ _ stop. stop ≡ OutOfMemory };

    fn from(_e: AllocError) -> Stop {
        Stop::OutOfMemory
    }
}

impl<T: Drop> From<AllocFailed<T>> for Stop {
    ghost from_gives = { λ _ stop. stop ≡ OutOfMemory };

    fn from(_e: AllocFailed<T>) -> Stop {
        Stop::OutOfMemory
    }
}
