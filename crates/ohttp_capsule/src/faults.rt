//! Why a capsule is refused.

ghost use Rattle.std.specs.Prelude.{◌≡◌, Some};
ghost use Rattle.ohttp_capsule.specs.Faults.{fault_number, fault_text};

use std::alloc::AllocError as OutOfMemory;
use std::error::Error;
use std::fmt;

/// Why a capsule is refused, in the order in which it is tested; memory may run out before `Failed`.
#[derive(Clone, Copy, Debug, PartialEq, Eq)]
pub enum CapsuleFault {
    /// The message is too short for what must stand in it.
    Short = 1,
    /// The header names another key, another KEM, or algorithms that don't encrypt here.
    Header = 2,
    /// The nonce of the response has another size than the header's AEAD asks for.
    NonceSize = 3,
    /// The tag does not hold: the bytes were changed, or are of another exchange.
    Failed = 4,
    /// Memory ran out.
    OutOfMemory = 5,
}

impl From<CapsuleFault> for u8 {
    ghost from_gives = { λ fault number. number ≡ fault_number fault };

    /// The number of the fault.
    fn from(fault: CapsuleFault) -> u8 {
        fault as u8
    }
}

impl fmt::Display for CapsuleFault {
    ghost output = { λ fault. Some (fault_text fault) };

    fn fmt<W: fmt::Write>(&self, f: &mut fmt::Formatter<W>) -> fmt::Result {
        f.write_str(match self {
            CapsuleFault::Short => "the message is too short",
            CapsuleFault::Header => "the header is not that of the key",
            CapsuleFault::NonceSize => "the nonce has another size",
            CapsuleFault::Failed => "the tag does not hold",
            CapsuleFault::OutOfMemory => "out of memory",
        })
    }
}

impl Error for CapsuleFault {}

impl From<OutOfMemory> for CapsuleFault {
    ghost use Rattle.ohttp_capsule.specs.declared.faults.CapsuleFault.TheVariants.{OutOfMemory};

    ghost from_gives = { λ _ fault. fault ≡ OutOfMemory };

    fn from(_error: OutOfMemory) -> CapsuleFault {
        CapsuleFault::OutOfMemory
    }
}
