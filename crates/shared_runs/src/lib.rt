//! Serves a plan by threads over contexts that its lanes share.
//!
//! [`run_lanes`] is the whole of it for a plan whose contexts stay, and [`run_live`] for one whose
//! lanes add and retire contexts. Both are one runner (`serving.rt`) over what its lanes share
//! ([`RunsLanes`](serving::RunsLanes)):
//!
//! - for `run_lanes` a [`Table`](tables::Table): each context that could be set up, under a lock of
//!   its own, and the counter of stamps;
//! - for `run_live` a table of names beside it, under a lock of its own too (live_table). Its contexts
//!   are shared as if each one that is named may be called, and the table decides which calls find
//!   theirs.
//!
//! What is with no lane lies apart: of each lock the passes that no lane has. A lane gets its passes
//! before its first call and gives them back after its last. Then all is closed. The books give the
//! journals, cut to the places that there are, and the table of names gives the notes.
//!
//! Whatever the threads do, the answers are those of one run of the plan that is allowed: its journals
//! are legal, or one legal history with its notes, and each guess may have been made (`AreOfARun` and
//! `AreOfALiveRun` of lane_workers).
//!
//! All memory is taken before the first call is served. Nothing says that the lanes finish: they
//! wait for one another's turns.
//!
//! Tests: `serving_tests` (through `batch_runner`).
#![tactic(auto)]

mod begun_run;
mod closing;
mod journals;
mod lanes;
mod live_contexts;
mod live_lanes;
mod live_runs;
mod noting;
mod runs;
mod serving;
mod sharing;
mod tables;

pub use live_runs::run_live;
pub use runs::run_lanes;
