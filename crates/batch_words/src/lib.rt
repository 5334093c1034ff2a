//! Reads the words of the command line.
//!
//! [`read_words`] gives the [`Command`] that the words spell, or none. A contract sees it as
//! `command_of` of `specs/Words.antt`, a function of the words' bytes in plain cases. The call
//! answers just what `command_of` gives, unless it runs out of memory.
//!
//! The first word names the command. The words after it go to one simple `clap` command, of options
//! or of required words, with neither help nor version, which takes each value as text. The values
//! are read here. Nothing is printed, and the texts of `clap` about a refusal are dropped: the
//! program reports it in one line of its own.
//!
//! What `clap` does is proved once for options of any names (`parse_options`) and once for words
//! under any names (`parse_operands`). So a command is its names and the reading of its values.
//!
//! Tests: `text_tests`.
#![tactic(auto)]

mod commands;
mod options;
mod parsing;
mod reading;
mod schedules;

pub use commands::{Command, Mult};
pub use reading::read_words;
pub use schedules::Schedule;
