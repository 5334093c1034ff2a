//! Serves every command on the calling thread.
//!
//! [`serve_alone`] takes the words and an input that lies in memory, and writes one text to a sink.
//! The outcomes and the texts are those that `MayEnd` of batch_serving has for the command and the
//! input. Reading, judging and writing are batch_serving's steps. Here lanes are answered by
//! context_core: those of `rehearse` by its schedule, those of `run`, `live` and `demo` one after
//! another. No thread is started, and nothing waits.
//!
//! `run_live_in_order` (`runs`) answers a plan whose lanes add and retire contexts, with no lock. Which
//! calls find their contexts follows from the plan alone then. So the table is made first (`tables`),
//! and the calls as they are served (`looked_up_plan` of due_replies) are answered by context_core,
//! lane by lane. Lines that add and retire contexts get replies of their own (`own_replies`), and the
//! stamps of places count the notes too (`stamps`). A contract sees that the answers are those of a
//! run that is allowed, `IsAllowedLive` of due_replies: the table is legal, and one history with the
//! journals. Threads may give others; `lane_workers` has them.
//!
//! Nothing of the program `hpkebatch` stands on it: its lanes are served by threads, in batch_runner.
//! The library for C does.
//!
//! Tests: `serving_tests`.
#![tactic(auto)]

mod alone;
mod demonstrating;
mod exchanging;
mod living;
mod own_replies;
mod rehearsing;
mod running;
mod runs;
mod stamps;
mod tables;

pub use alone::serve_alone;
pub use runs::run_live_in_order;
