//! The codings of Streamlined NTRU Prime as byte strings (NTRU Prime round 3, Encode and Decode,
//! and the encodings of small, R/q and rounded elements), for each parameter set.
//!
//! A contract sees a [`ByteList`], a [`DigitList`] and an element as lists. What each call gives
//! stands in `specs/Radix.antt` for digits below any radices, and in `specs/Codings.antt` for the
//! elements of a parameter set. Lengths are in bytes, and a condition of each decoding: every byte
//! string of that length decodes, but for the small coding, which refuses what no element encodes
//! to. The other two codings have several byte strings for one element. [`laws`] says that what was
//! encoded decodes to its source. Else want of memory is the only refusal.
//!
//! That no branch and no address depends on the coefficients of an element that is encoded, or on the
//! digits of a small coding, is tested over the built program, and not proved. Whether a small coding
//! is well-formed is told, and the time of decoding R/q, whose bytes are public, isn't watched.
//!
//! Tests: `lattice_tests`.
#![tactic(auto)]

mod elements;
pub mod laws;
mod levels;
mod parts;
mod radix;
mod small;

pub use byte_strings::ByteList;
pub use elements::{rounded_decode, rounded_encode, rq_decode, rq_encode};
pub use radix::{DigitList, decode, encode};
pub use small::{small_decode, small_encode};
