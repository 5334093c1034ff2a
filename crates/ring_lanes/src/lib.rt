//! The product of Streamlined NTRU Prime's two rings on vectors (NTRU Prime round 3, parameter
//! sets).
//!
//! [`Lanes`] is a `Multiplier` of `ring_core`: a contract sees of it the law of that trait alone,
//! so its products are those of any other multiplier, for every parameter set. It computes the sums
//! of a convolution 32 at a time, by multiplication, whatever the factors are. Want of memory is the
//! only refusal.
//!
//! No branch and no address depends on a coefficient of either factor, so its products take the
//! same time for each: tested over the built program, not proved.
//!
//! Tests: `lattice_tests`.
#![tactic(auto)]

mod convolution;
mod multiplier;
mod padding;
mod pairs;

pub use multiplier::Lanes;
