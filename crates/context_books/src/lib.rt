//! What is legal for a context that lanes share (RFC 9180, 5.2), which replies a plan may have, the
//! changing part of one such context, its book, and how the replies of a call are written.
//!
//! **Journals.** A call asks a context to seal a text or to open ciphertexts. What it asks for has
//! places, and the journal of a context is a list of places. `Legal` of `specs/Legal.antt` says which
//! lists are journals: each place that the context was asked for, once, in the order of its lane. The
//! replies of a journal are the answers of the sequential context along it; `specs/Entries.antt` says
//! it entry by entry. An opening of several messages guesses the number at which its turn will come:
//! `Guessed` of `specs/Guesses.antt` says which guesses it may have made. With stamps the journals of
//! all contexts are one history: `LegalHistory` of `specs/Histories.antt`. `specs/Checks.antt` has
//! tests of all this that compute.
//!
//! **Runs.** `specs/Asks.antt` says what the calls of a plan ask of the contexts that were set up, and
//! `specs/Runs.antt` which lines reply to them: along given journals each item is answered at its
//! place, and a refused call and an export by itself. `IsAllowed` says which journals and guesses
//! there may be. `specs/Live.antt` says the same of lanes that add and retire contexts, with the table
//! besides, and `specs/LiveChecks.antt` has a test of tables and journals that computes. The contexts
//! are an argument: [`standing`] looks one up, and [`refusal_of`] says which calls they refuse.
//!
//! What follows from these definitions is said by laws, functions that do nothing, whose contracts
//! are the laws: those of `journals`, `histories`, `guesses`, `entries`, `checks`, `laws`, `live_laws`
//! and `sharing`.
//!
//! **A second run.** [`may_run_again`] says whether a plan's seals have the same answers in every run:
//! where no two lanes seal on one context (`specs/Sharing.antt`).
//!
//! **Books.** A [`Book`] is a list of entries under a LIMIT and a quota for each lane. Its next sequence
//! number is how many of its entries sealed or opened. [`Book::draw`] gives the number of a seal before
//! the text is encrypted, and [`Book::settle`] opens the items of a call one after another. Each adds
//! the entries that the sequential context adds at the book's number, with stamps that rise. A
//! `GuessTable` holds verdicts on tags that were found ahead of time; settling checks again only the
//! items whose number their window missed. [`all_quotas`] counts how many entries each lane may add to
//! the book of each context, and [`write_journals`] writes the marks of each book over the room that
//! was made for the journal of its context.
//!
//! **Replies.** Once a number is drawn or the steps of an opening are settled, a text is encrypted or
//! decrypted with the context's key (RFC 9180, 5.2), or a secret is exported (RFC 9180, 5.3), straight
//! into the pool of the lane's answers, and the replies are put there ([`finish_seal`],
//! [`finish_opening`], [`export`], [`refuse`]). `PutsReplies` of `specs/Writing.antt` says with which
//! lines. A context is only read for that, so any thread may do it. `HasAnswered` and `HasRoomFor` of
//! `specs/Answered.antt` are what a lane keeps from call to call.
//!
//! Only making a book and counting the quotas take memory. Nothing here waits or draws a stamp, and in
//! which order calls are served is not known here.
//!
//! Tests: `context_tests`, `check_tests` and `serving_tests`; of the definitions the rows of `src/rows.rt`
//! and `src/live_rows.rt`, which the prover computes.
#![tactic(auto)]

mod book;
mod checks;
mod contexts;
mod counting;
mod entries;
mod exporting;
mod guesses;
mod histories;
mod journals;
mod laws;
mod live_laws;
mod live_rows;
mod marking;
mod naming;
mod opening;
mod rows;
mod sealing;
mod settling;
mod sharing;

pub use book::{Book, Draw};
pub use checks::{a_guess_is_told, a_legal_history_is_told, a_legal_journal_is_told};
pub use contexts::{refusal_of, standing};
pub use counting::all_quotas;
pub use entries::{
    a_step_advances_as_its_answer, entries_fit_lane_by_lane, fitting_entries_are_a_run,
};
pub use exporting::{export, refuse};
pub use guesses::a_guess_lies_between;
pub use histories::{a_legal_history_has_legal_journals, a_legal_history_is_one_list};
pub use journals::{
    a_call_is_answered_item_by_item, a_legal_journal_merges_its_lanes, each_number_is_used_once,
    each_served_place_has_its_reply, no_lane_has_an_empty_journal, one_lane_has_one_journal,
    one_lane_is_answered_in_order, some_journals_are_not_legal,
};
pub use laws::{a_refused_context_is_never_live, a_served_call_was_live, refusals_agree};
pub use live_laws::{a_live_history_is_one_list, a_live_history_is_told};
pub use live_rows::{rows_of_live_histories, rows_of_stamps, rows_of_tables};
pub use marking::write_journals;
pub use naming::items_of_opening;
pub use opening::finish_opening;
pub use rows::{rows_of_guesses, rows_of_histories, rows_of_journals, rows_of_replies};
pub use sealing::finish_seal;
pub use sharing::{
    live_seals_are_answered_alike, may_run_again, one_lane_alone_has_one_journal,
    replies_differ_in_guesses, seals_are_answered_alike,
};
