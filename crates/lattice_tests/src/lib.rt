//! The tests of the crates of Streamlined NTRU Prime, from `ring_core` up to `sntrup_kem`, a module
//! for each; the multipliers go through one table of products, `examples`.
//!
//! They are a crate of their own, so that each of those crates is proved without them.
#![tactic(auto)]

#[cfg(test)]
mod examples;
#[cfg(test)]
mod expected;
#[cfg(test)]
mod radix_pack_tests;
#[cfg(test)]
mod rand_words_tests;
#[cfg(test)]
mod ring_core_tests;
#[cfg(test)]
mod ring_inverse_tests;
#[cfg(test)]
mod ring_karatsuba_tests;
#[cfg(test)]
mod ring_lanes_tests;
#[cfg(test)]
mod sntrup_core_tests;
#[cfg(test)]
mod sntrup_kem_tests;
