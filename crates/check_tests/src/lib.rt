//! Tests of what is said of results: the line of each verdict (result_lines), and verdicts on the
//! results of small batches (journal_check). And of which batches may be run again (context_books).
//!
//! They are a crate of their own, so that each of those crates is proved without them, and use
//! public calls alone.
#![tactic(auto)]

#[cfg(test)]
mod expected;
#[cfg(test)]
mod journal_check_tests;
#[cfg(test)]
mod result_verdicts_tests;
#[cfg(test)]
mod sharing_tests;
