//! Batches of capsules: their two texts, and their serving (RFC 9458, 4).
//!
//! The batch text says what to ask, answer and take; the reply text has the results. Both are formats
//! of this program's own, beside those of request_frames. A batch of capsules has the seed and key
//! lines of a batch of version 2, and then lines `ask`, `answer` and `take`. [`read_capsules`] answers
//! the [`CapsulePlan`] that a text spells by `capsules` of `specs/Capsules.antt`, or its first bad line
//! and that line's first reason. [`one_reading`] says that each text has just one of these, and
//! [`one_spelling`] that a plan's text is `text_of` of `specs/PlanText.antt` and no other.
//! [`print_capsules`] appends exactly the text `capsules_text` of `specs/Text.antt`, or a prefix of it
//! if the sink failed.
//!
//! [`serve_capsules`] gives the replies to a plan. They are the replies of one client and one gateway
//! that do the lines one after another, in the order of the text: `AreReplies` of
//! `specs/Replies.antt`, for each line by `specs/Lines.antt`. So they are a function of the plan,
//! whatever threads answer and with each [`Multiplier`](ring_core::Multiplier). [`laws`] says so, and
//! says that after a whole exchange each side has the other's text. [`serve_capsules_alone`] gives them
//! on the calling thread.
//!
//! Not here: what a message is (`ohttp_capsule`), what a key is (`context_table`). Nothing is wiped.
//!
//! Tests: `text_tests` and `capsule_tests`.
#![tactic(auto)]

mod answers;
mod asks;
mod draft;
mod finding;
mod forms;
mod jobs;
mod known;
pub mod laws;
mod lines;
mod merging;
mod printing;
mod reading;
mod replies;
mod results;
mod serving;
mod takes;
mod words;

pub use known::KnownText;
pub use lines::{CapsuleLine, CapsuleLines, CapsulePlan};
pub use printing::print_capsules;
pub use reading::{one_reading, one_spelling, read_capsules};
pub use replies::{CapsuleRefusal, CapsuleReply};
pub use serving::{CapsuleAnswers, CapsuleReplies, serve_capsules, serve_capsules_alone};
