//! Why a call of a context is refused.

ghost use Rattle.std.specs.Prelude.{◌≡◌, Some};
ghost use Rattle.hpke_context.specs.Faults.{fault_number, fault_text};

use std::error::Error;
use std::fmt;

/// Why a call of a context is refused. A refusal changes nothing but the count of checks.
#[derive(Clone, Copy, Debug, PartialEq, Eq)]
pub enum CallFault {
    /// A recipient doesn't seal, and a sender doesn't open.
    Role = 1,
    /// The suite is export-only.
    NoCipher = 2,
    /// The sequence number has come to LIMIT.
    Limit = 3,
    /// The tag doesn't hold at the number that is due: the bytes were changed, are too few for a tag,
    /// are out of order, or are of another context.
    Failed = 4,
    /// More than 255 Nh bytes are asked for.
    ExportSize = 5,
}

impl From<CallFault> for u8 {
    ghost from_gives = { λ fault number. number ≡ fault_number fault };

    /// The number of the fault.
    fn from(fault: CallFault) -> u8 {
        fault as u8
    }
}

impl fmt::Display for CallFault {
    ghost output = { λ fault. Some (fault_text fault) };

    fn fmt<W: fmt::Write>(&self, f: &mut fmt::Formatter<W>) -> fmt::Result {
        f.write_str(match self {
            CallFault::Role => "the other role's call",
            CallFault::NoCipher => "the suite is export-only",
            CallFault::Limit => "the sequence number is at its limit",
            CallFault::Failed => "the tag does not hold",
            CallFault::ExportSize => "the export is too long",
        })
    }
}

impl Error for CallFault {}
