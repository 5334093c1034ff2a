//! Reciprocals in the two rings of Streamlined NTRU Prime: of an element modulo 3, and of 3f modulo
//! q (NTRU Prime round 3, KeyGen).
//!
//! A [`Reciprocal`] is its own certificate: `Inverse(v)` has the product 1 with the element, and
//! `Annihilator(u)` the product 0, with u not 0. Contracts say so by the definitions of
//! `specs/Reciprocals.antt`, and that an annihilator comes exactly where no inverse exists: no
//! element has both. Want of memory is the only refusal.
//!
//! An inverse is looked for by division steps first, and tested by one product: for 3f by
//! [`times_3f`], which decryption uses too. Only where that fails does the elimination decide.
//!
//! In the division steps and the test no branch and no address depends on f or g, but on whether an
//! inverse was found. That is tested over the built program, and not proved; and it holds as far as
//! the multiplier keeps to it. The elimination isn't constant time: it runs for elements without an
//! inverse alone, unless the steps fail.
//!
//! Tests: `lattice_tests`.
#![tactic(auto)]

mod division;
mod elimination;
pub mod laws;
mod lines;
mod modulo_3;
mod modulo_q;
mod numbers;
pub mod quick;
mod reciprocal;
mod triples;
mod windows;

pub use quick::times_3f;
pub use reciprocal::{Reciprocal, reciprocal_3, reciprocal_3f};
