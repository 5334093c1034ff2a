//! The product of Streamlined NTRU Prime's two rings by Karatsuba's splitting (NTRU Prime round 3,
//! parameter sets; Karatsuba and Ofman, 1962).
//!
//! [`Karatsuba`] is a `Multiplier` of `ring_core`: a contract sees of it the law of that trait
//! alone, so its products are those of any other multiplier, for every parameter set. It splits
//! both factors at the half until they have at most 32 coefficients, and makes three products of
//! halves where the plain product makes four. Want of memory is the only refusal.
//!
//! No branch and no address depends on a coefficient, since each row is multiplied: tested over the
//! built program, not proved. `Lanes` of `ring_lanes` has that too, and is faster.
//! Nothing here is wiped.
//!
//! Tests: `lattice_tests`.
#![tactic(auto)]

mod multiplier;
mod split;
mod sums;

pub use multiplier::Karatsuba;
