//! A checker of results: whether a text is one that a plan may be answered with.
//!
//! [`check_result`] reads a result back and answers its [`Verdict`]: the first thing that is wrong
//! with it, or that it is legal. `IsVerdict` of `specs/Verdicts.antt` says which verdict that is.
//! Lines that the plan and its set-up decide are compared as text. Journals are judged by the tests
//! of context_books, and as one history if they have stamps. Each journal is run through the
//! sequential context (RFC 9180, 5.2), and the replies are compared with its answers. Each guess is
//! compared with the numbers that it may have had.
//!
//! Which journals are legal depends on how many items each call asks of which context, and on no
//! bytes. `broken_journal` and `is_one_history` (`journals.rt`, `histories.rt`) answer what the laws of
//! context_books say, of as many places as may be legal (`kept.rt`); `is_table` and `is_live_history`
//! (`tables.rt`) do the same with a table, as one journal more.
//!
//! [`check_live_result`] does the same with a result whose lanes add and retire contexts
//! (`IsLiveVerdict`). The lines of its set-up are read first, so that a text which is wrong there is told
//! at once. Then its table is, and says which calls found their contexts. The calls as
//! they were served are then judged as those of a plan whose contexts stay, and the table as one
//! journal more. One `verdict_on` (`checking.rt`) serves both kinds of results.
//!
//! Nothing here starts a thread: [`check_result_by`] serves a caller that has no runtime, by a
//! permission to check tags. Each call, each place and each reply is passed a fixed number of
//! times, whatever the contexts and lanes are; stamps are put in order by their numbers. Each pair
//! of a lane and a journal costs one first place and one cursor, and nothing else.
//!
//! Tests: `check_tests`.
#![tactic(auto)]

mod asks;
mod checking;
mod dealing;
mod guesses;
mod histories;
mod items;
mod journals;
mod kept;
mod lane_walks;
mod links;
mod live_checking;
mod live_replies;
mod lives;
mod orders;
mod replies;
mod runs;
mod same;
mod spots;
mod tables;

pub use checking::{check_result, check_result_by};
pub use live_checking::{check_live_result, check_live_result_by};
pub use result_lines::Verdict;
