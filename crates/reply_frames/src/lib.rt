//! The printing of replies to batches, a format of this program's own, which batch_plans defines.
//!
//! [`print_answers`] and [`print_bad`] append exactly the text that batch_plans defines, or a
//! prefix of it if the sink failed; [`print_setup`] and [`print_reply`] do the same for parts of
//! it, and [`print_live`] for the reply to a batch whose lanes add and retire contexts. For texts of
//! other crates [`put_keys`] and [`put_numbered`] put a part into a buffer. A [`LinePrinter`] prints
//! one line after another, each into memory of its own, for a caller that compares it.
//!
//! No printer of a whole reply takes memory. Not here: how a batch is read, and which answers it has.
//!
//! Tests: `text_tests`, by the names that request_frames and live_frames give these calls.
#![tactic(auto)]

mod given_replies;
mod lane_replies;
mod line_texts;
mod live_printing;
mod printing;
mod replies;
mod reply_lines;
mod reply_words;

pub use lane_replies::reply_count;
pub use line_texts::{LinePrinter, TextSink};
pub use live_printing::print_live;
pub use printing::{print_answers, print_bad, print_reply, print_setup};
pub use replies::put_keys;
pub use reply_lines::{put_numbered, tells_live};
