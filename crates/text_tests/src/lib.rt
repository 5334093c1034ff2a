//! Tests of the texts: of byte_strings, call_places, batch_io, field_text, reply_frames and
//! request_frames (with batch_plans), live_frames, capsule_frames and batch_words, a module a crate.
//!
//! They are a crate of their own, so that each of those crates is proved without them, and use
//! public calls alone. There is nothing here to call.
#![tactic(auto)]

#[cfg(test)]
mod bad_cases;
#[cfg(test)]
mod batch_io_tests;
#[cfg(test)]
mod batch_words_tests;
#[cfg(test)]
mod call_places_tests;
#[cfg(test)]
mod capsule_frames_tests;
#[cfg(test)]
mod decimal_text_tests;
#[cfg(test)]
mod expected;
#[cfg(test)]
mod field_text_tests;
#[cfg(test)]
mod live_frames_tests;
#[cfg(test)]
mod printable;
#[cfg(test)]
mod request_frames_tests;
#[cfg(test)]
mod sinks;
