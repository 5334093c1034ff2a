//! What the library for C does: each call answers a status, and works on bytes that its caller lends.
//!
//! A call answers a status of `specs/Statuses.antt`: 0 where it did its work, and else why it didn't.
//! Then it changed nothing that it was lent. Nothing is kept between two calls.
//!
//! Each contract says what a call answers of the caller's own bytes, by the definitions of the crates
//! below. `hpkebatch_c` exports these calls to C, with the same clauses: those of the KEM, and those that
//! need its keys, once for each set. So a call that is generic over the set asks for the sizes of the
//! set, and no other call has a condition that its caller must meet.
#![tactic(auto)]

mod answers;
mod asks;
mod batch;
mod ciphers;
mod contexts;
mod exchanges;
mod in_place;
mod kem;
mod messages;
mod outputs;
mod serving;
mod setups;
mod statuses;

pub use answers::put_answer;
pub use asks::{HpkeAsked, put_asked, take_response};
pub use batch::{check, read};
pub use ciphers::{gcm_open, gcm_seal};
pub use contexts::{HpkeContext, context_export, context_open, context_seal};
pub use exchanges::{put_recipient, put_sender};
pub use in_place::{context_open_in_place, context_seal_in_place};
pub use kem::{put_enc, put_pair, put_session};
pub use messages::{context_open_all, context_seal_all};
pub use serving::serve;
pub use setups::context_shared;
