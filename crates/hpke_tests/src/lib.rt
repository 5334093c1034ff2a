//! Tests of the crates of HPKE, from ghash_core, aes_block and hkdf_labelled up to hpke_context,
//! over published vectors, a module a crate.
//!
//! They are a crate of their own, so that each of those crates is proved without them, and use
//! public calls alone.
#![tactic(auto)]

#[cfg(test)]
mod aes_block_tests;
#[cfg(test)]
mod aes_gcm_tests;
#[cfg(test)]
mod expected;
#[cfg(test)]
mod ghash_core_tests;
#[cfg(test)]
mod hkdf_labelled_tests;
#[cfg(test)]
mod hpke_context_tests;
#[cfg(test)]
mod key_schedule_tests;
