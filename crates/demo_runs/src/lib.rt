//! A demonstration: makes a large batch from a number, lets its lanes seal it, and opens it again.
//!
//! It has two batches, made as texts of a format of this program's own (docs/FORMAT.md) and read by
//! `read_batch`. Each has a key, the context of a sender to it, with number 0, and that of the
//! recipient, with number 1 (RFC 9180, 5.1). In the first ([`sealing_batch`]) several lanes seal one
//! text again and again with the context of the sender. The second ([`opening_batch`]) opens given
//! ciphertexts in their order, in one lane. It is proved that the texts are in the grammar, so a call
//! gives a plan unless it runs out of memory. A contract sees a plan by what its calls ask:
//! `IsSealingPlan` and `IsOpeningPlan` of `specs/Plans.antt`.
//!
//! Who serves the lanes is not known here: a caller takes these steps, and serves each batch as `run`
//! may serve it (`IsServed` of `specs/Batches.antt`).
//!
//! 1. [`begin_sealing`] sets the first batch up. Where the seed gives no key, [`report_without_key`]
//!    is the report.
//! 2. [`ciphertexts`] are the replies of the first batch, in number order.
//! 3. [`begin_opening`] sets the second batch up, from the ciphertexts.
//! 4. [`report`] counts the messages that were opened.
//!
//! `IsDemo` of `specs/Demo.antt` says what the [`DemoReport`] is: if the key was generated, then every
//! message was opened, and the hash is that of Seal at the numbers from 0 on, joined, whichever lane
//! drew which number. [`one_report`] says that there is one such report for each seed and number of
//! messages. [`print_report`] writes it as two lines.
//!
//! Which words of a command line ask for it is not known here.
//!
//! Tests: `serving_tests` (through `batch_runner` and `batch_alone`).
#![tactic(auto)]

mod batches;
mod ciphertext_bytes;
mod laws;
mod opening;
mod plans;
mod report_lines;
mod reports;
mod sealing;
mod texts;

pub use batches::{DemoBatch, ServedBatch};
pub use ciphertext_bytes::{CIPHERTEXT_SIZE, see_bytes};
pub use laws::one_report;
pub use opening::begin_opening;
pub use plans::{opening_batch, sealing_batch};
pub use report_lines::{DemoReport, print_report};
pub use reports::{report, report_without_key};
pub use sealing::{Ciphertexts, Sealing, begin_sealing, ciphertexts};
