//! The core: serves the lanes of a plan step by step, and then answers them side by side.
//!
//! [`rehearse_by`] lets the lanes take their steps in the order of a schedule, and fills in the
//! answers that were made for the plan. The replies, guesses and journals are those of `rehearsed`
//! of `specs/Rehearsals.antt`. So a rehearsal is an exact function of plan, contexts and schedule, and
//! whatever the schedule, each of its journals is legal (`laws`).
//!
//! `core` of `specs/Core.antt` knows no key, no table and no book: it runs the lanes of a batch by a
//! list of lane numbers, each of which lets that lane take its next step. The laws of `schedule_laws`,
//! functions that do nothing, say that, whatever the list, each context's journal is legal, all
//! journals together are one legal history, each guess may have been made, and an opening is answered
//! as its messages one after another (RFC 9180, 5.2).
//!
//! A seal draws its number (RFC 9180, 5.2) in one step. An opening guesses, tests tags ahead of time,
//! and takes its places in one block. Other lanes may step in between, as threads do (`lanes`). The
//! Finish of a call notes what was drawn or settled for it. When all calls are done, each lane is
//! answered from its notes: texts are encrypted and decrypted and secrets exported, into the lane's
//! own room (`answers`). All memory is taken before the first step.
//!
//! Tags are tested by a [`Crew`](speculative_open::Crew), and lanes answered by an `Answerer`: by
//! threads of a runtime, as [`rehearse`] has them, or by the caller alone.
//!
//! Tests: `context_tests`; of the core the rows of `src/schedule_rows.rt`, which the prover computes.
#![tactic(auto)]

mod answerers;
mod answers;
mod books;
mod lanes;
pub mod laws;
mod preparing;
mod rehearsals;
mod schedule_laws;
mod schedule_rows;

pub use rehearsals::{rehearse, rehearse_by};
pub use schedule_laws::{
    an_idle_lane_does_nothing, every_schedule_is_legal, every_schedule_is_one_history,
    every_schedule_opens_in_turn,
};
pub use schedule_rows::{rows_of_guesses, rows_of_histories};
