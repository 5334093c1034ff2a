//! HPKE's key schedule (RFC 9180, 5.1), modes base and psk, and its nonces (RFC 9180, 5.2).
//!
//! [`schedule`] is KeySchedule of the RFC as `key_schedule` of `specs/Schedule.antt` states it, the
//! errors of VerifyPSKInputs included, for all inputs; [`verify_psk_inputs`] tests these alone.
//! [`nonce_at`] is ComputeNonce. A contract sees [`Secrets`] as the byte strings in it.
//!
//! Export (RFC 9180, 5.3) is stated in `specs/Exports.antt` for the crates that hold a context. Not
//! here: the modes auth and auth_psk; the KEM, whose shared secret the caller gives; the sequence
//! number, which a context keeps. The RFC wants a psk of high entropy, which nothing here judges,
//! and nothing is wiped.
//!
//! Tests: `hpke_tests`.
#![tactic(auto)]

mod modes;
mod nonces;
mod psks;
mod schedules;

pub use modes::{Mode, Role};
pub use nonces::nonce_at;
pub use psks::{PskFault, verify_psk_inputs};
pub use schedules::{CipherSecrets, Secrets, schedule};
