//! Tests of the command and of what its threads share: `batch_runner`, `batch_alone`, `batch_serving`,
//! `shared_context`, `live_table`, `stamp_counter` and `turn_lock`, by their public calls alone.
//!
//! They are a crate of their own, so that each of those crates is proved without them.
#![tactic(auto)]

#[cfg(test)]
mod batch_runner_tests;
#[cfg(test)]
mod expected;
#[cfg(test)]
mod live_table_tests;
#[cfg(test)]
mod shared_context_tests;
#[cfg(test)]
mod stamp_counter_tests;
#[cfg(test)]
mod stamped_lists_tests;
#[cfg(test)]
mod turn_lock_tests;
