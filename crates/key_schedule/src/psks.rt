//! Whether a pre-shared key fits the mode (RFC 9180, 5.1).

ghost use Rattle.std.specs.Prelude.{◌≡◌, ◌↔◌, [], Some};
ghost use Rattle.key_schedule.specs.Faults.{fault_number, fault_text};
ghost use Rattle.key_schedule.specs.Psks.{IsGiven, OneIsMissing, verify_psk_inputs};

use crate::modes::Mode;
use std::error::Error;
use std::fmt;

/// Why a psk, its id and the mode don't go together, in the order in which it is tested. An empty
/// psk or psk_id is one that isn't given. The RFC raises an error in the same cases.
#[derive(Clone, Copy, Debug, PartialEq, Eq)]
pub enum PskFault {
    /// Exactly one of psk and psk_id is given.
    Inconsistent = 1,
    /// A psk is given in mode base, which takes none.
    Unneeded = 2,
    /// No psk is given in mode psk.
    Missing = 3,
}

impl From<PskFault> for u8 {
    ghost from_gives = { λ fault number. number ≡ fault_number fault };

    /// The number of the fault.
    fn from(fault: PskFault) -> u8 {
        fault as u8
    }
}

impl fmt::Display for PskFault {
    ghost output = { λ fault. Some (fault_text fault) };

    fn fmt<W: fmt::Write>(&self, f: &mut fmt::Formatter<W>) -> fmt::Result {
        f.write_str(match self {
            PskFault::Inconsistent => "one of psk and psk_id is missing",
            PskFault::Unneeded => "mode base takes no psk",
            PskFault::Missing => "mode psk needs a psk",
        })
    }
}

impl Error for PskFault {}

/// Whether the psk, its id and the mode go together: VerifyPSKInputs (RFC 9180, 5.1).
pub fn verify_psk_inputs(mode: Mode, psk: &[u8], psk_id: &[u8]) -> Result<(), PskFault>
    ensures result { result ≡ verify_psk_inputs mode psk.now psk_id.now }
    ensures inconsistent { (result ≡ Err PskFault.Inconsistent) ↔ OneIsMissing psk.now psk_id.now }
    ensures unneeded { (result ≡ Err PskFault.Unneeded)
        ↔ ((mode ≡ Mode.Base) × IsGiven psk.now × IsGiven psk_id.now) }
    ensures missing { (result ≡ Err PskFault.Missing)
        ↔ ((mode ≡ Mode.Psk) × (psk.now ≡ []) × (psk_id.now ≡ [])) }
{
    if psk.is_empty() != psk_id.is_empty() {
        return Err(PskFault::Inconsistent);
    }
    match mode {
        Mode::Base if !psk.is_empty() => Err(PskFault::Unneeded),
        Mode::Psk if psk.is_empty() => Err(PskFault::Missing),
        _ => Ok(()),
    }
}
