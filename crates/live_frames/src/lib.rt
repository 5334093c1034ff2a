//! The two texts of a batch whose lanes add and retire contexts while they are served, under one
//! name for callers outside: [`read_live`] and [`read_live_front`] are request_frames' and
//! [`print_live`] is reply_frames', and so are the laws. Nothing is defined or proved here, and no
//! crate of this repository but the tests uses these names.
//!
//! Tests: `text_tests`.
#![tactic(auto)]

pub use reply_frames::print_live;
pub use request_frames::{
    live_fronts_are_batches, one_live_reading as one_reading, one_live_spelling as one_spelling,
    read_live, read_live_front,
};
