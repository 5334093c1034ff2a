//! Requests and responses as Oblivious HTTP encapsulates them (RFC 9458, 4), over the contexts of
//! `hpke_context` and the KEM of `sntrup_kem`: for both parameter sets, each KDF and both AES-GCM.
//!
//! A client's [`ask`] seals a text to a public key, a gateway's [`answer`] opens it and seals
//! another under a key of that exchange, and the client's [`take`] opens that. Each is a function
//! of its inputs, by `specs/Requests.antt`, `Responses.antt` and `Replies.antt`. Each refusal comes
//! if its cause is there and only then (`Refusals.antt`). [`laws`] says that after a whole exchange
//! each side has the other's text. The parts of an exchange beside the KEM are public too, for a
//! shared secret of another KEM: the header ([`headers`]), the contexts of both sides ([`setups`]),
//! and the first message of one, opened ([`firsts`]).
//!
//! Not here: binary HTTP messages, key configurations (RFC 9458, 3), media types (3.2 and 4.5), and
//! where the nonce of a response comes from, which must be random. Nothing is wiped.
//!
//! Tests: `capsule_tests`.
#![tactic(auto)]

mod answering;
mod asking;
mod faults;
pub mod firsts;
pub mod headers;
mod kept;
pub mod laws;
mod responses;
pub mod setups;
mod strings;
mod taking;

pub use answering::{answer, answer_by};
pub use asking::{Asked, ask};
pub use faults::CapsuleFault;
pub use kept::KeptContext;
pub use taking::{take, take_by};
