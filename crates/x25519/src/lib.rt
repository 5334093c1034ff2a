//! X25519 (RFC 7748, 5): the function of two strings of 32 bytes, a secret scalar and a u-coordinate.
//!
//! [`x25519`] is `x25519` of `specs/Ladder.antt`, for all strings: the RFC's ladder, turn by turn. It
//! refuses none: whoever needs an output that isn't zero tests for that. That two ends agree, x25519(a,
//! x25519(b, 9)) = x25519(b, x25519(a, 9)), is a fact about the curve. It is not proved here; `TwoAgree`
//! of `specs/Laws.antt` states it of two scalars, for laws that take it as a premise.
//!
//! That no branch and no address depends on the scalar or on the u-coordinate is tested over the built
//! program (`tools/secrets`), and not proved. Nothing is wiped.
//!
//! Tests: `curve_tests`.
#![tactic(auto)]

mod ladder;
pub mod laws;
mod scalars;

pub use ladder::x25519;
pub use scalars::clamped;
