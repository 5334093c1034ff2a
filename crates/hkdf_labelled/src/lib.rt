//! HMAC (RFC 2104) and HKDF (RFC 5869) over SHA-256, SHA-384 and SHA-512, and HPKE's labelled forms
//! of them (RFC 9180, 4).
//!
//! A contract sees a [`Prk`] as its bytes, a [`Mac`] by the key and the message that it holds, and
//! an [`Expander`], which expands one PRK many times, as its KDF and the PRK. Each call is the
//! standard's function for all inputs: `hmac`, `extract`, `expand`, `labeled_extract` and
//! `labeled_expand` of `specs/`, with `hash` of `specs/Suites.antt` for H. No call refuses anything
//! or takes memory. The callers keep three conditions: the RFC's own limit of 255 blocks on what is
//! expanded, that an [`Expander`] has the KDF of the suite that it is given, and that a [`Prk`] has
//! at most 64 bytes.
//!
//! Branches and addresses depend on lengths alone, which is tested and not proved (`tools/secrets`).
//! Nothing is wiped, and nothing judges how much entropy a key has.
//!
//! Tests: `hpke_tests`.
#![tactic(auto)]

mod expanders;
mod hashers;
mod hkdf;
mod labels;
mod macs;
mod prks;
mod suites;

pub use expanders::Expander;
pub use hkdf::{expand_into, extract};
pub use labels::{
    labeled_expand_into, labeled_expand_with, labeled_extract, labeled_extract_with, suite_id,
};
pub use macs::{Mac, hmac};
pub use prks::Prk;
pub use suites::{Aead, AeadParameters, Kdf, Suite, TAG_SIZE};
