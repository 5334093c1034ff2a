//! Sets up a batch (RFC 9180, 5.1): its keys and its contexts.
//!
//! [`set_up`] answers each key line and each context line of a plan, and gives the contexts that
//! could be set up. [`key_table`] answers the key lines alone, and gives the keys. What `set_up`
//! gives is the plan's set-up, `IsSetUp` of `specs/SetUp.antt`: keys by KeyGen, contexts by Encap
//! and Decap (NTRU Prime round 3) and by KeySchedule, from the words of the plan's seed. [`laws`]
//! says that a plan has one set-up, so it is the same with each
//! [`Multiplier`](ring_core::Multiplier), and that both sides of an exchange match: the recipient
//! opens what the sender sealed.
//!
//! A contract sees the replies and the contexts as lists. Not here: reading a plan from text,
//! printing the replies, serving calls. Nothing is wiped.
//!
//! Tests: `context_tests`.
#![tactic(auto)]

mod contexts;
mod exchanges;
mod keys;
pub mod laws;
mod pairs;
mod parts;
mod setups;
mod streams;

pub use keys::{Key, KeySlots, KeyTable, key_table};
pub use pairs::KeyPair;
pub use setups::{ContextSlots, Setup, export_limits, set_up};
pub use streams::context_stream;
