//! Reads a result of a plan back, line by line, and defines the verdict on it.
//!
//! A result is a reply text, a format of this program's own. The plan, the replies to its set-up
//! and the contexts decide which lines it must have, and reply_frames prints those that are known
//! whole; its replies, guesses and journals are read from it. [`read_result`] gives what a text says,
//! or its first line that is missing or of another form, as `told_by` of `specs/Told.antt` defines it.
//!
//! Where lanes add and retire contexts, which lines a call has depends on the table at the text's
//! end. So [`read_table`] reads it first, [`looked_up_lanes`] gives the calls as it tells that they
//! were served, and [`read_live_result`] reads the lines of these (`specs/ToldLive.antt`). The lines of
//! the set-up don't depend on it: [`read_live_setup`] reads them alone.
//!
//! A contract sees a text as the lines that are left of it. Of a journal the lines are tested and no
//! place is kept: [`JournalLines`] reads its first places again, so many as its reader wants.
//!
//! `IsVerdictOn` of `specs/Verdicts.antt` is the verdict: the first thing that is wrong with the
//! journals, their stamps, the replies and the guesses. The law
//! [`legal_texts_are_those_of_allowed_runs`] says what it is worth: a text is legal if it is the text of
//! some allowed journals and guesses, and only then. `IsLiveVerdictOn` of `specs/LiveVerdicts.antt` is
//! the verdict on a result whose lanes add and retire contexts, with the table besides, and
//! [`legal_live_texts_are_those_of_allowed_runs`] its law. `specs/Computed.antt` has tests that compute
//! it, and [`the_verdict_is_the_first_that_is_wrong`] says that they do. [`print_verdict`] prints a
//! verdict. How a verdict is found is not known here.
//!
//! Tests: `check_tests` (through `journal_check`).
#![tactic(auto)]

mod forms;
mod laws;
mod lines;
mod live_reading;
mod looking_up;
mod printing;
mod reading;
mod replies;
mod stamps;
mod stop;
mod tables;
mod told;
mod verdict_laws;
mod verdicts;

pub use laws::{
    what_is_printed_is_read_back, what_is_printed_live_is_read_back, what_is_read_is_the_text,
    what_is_read_live_is_the_text,
};
pub use lines::{JournalLines, Lines, is_line};
pub use live_reading::{read_live_result, read_live_setup};
pub use looking_up::{live_calls, looked_up, looked_up_lanes};
pub use printing::print_verdict;
pub use reading::read_result;
pub use replies::Replies;
pub use stamps::Stamps;
pub use stop::Stop;
pub use tables::{NamedAct, NoteLine, noting, read_table};
pub use told::{GuessLine, ReplyLine, Told};
pub use verdict_laws::{
    a_live_text_tells_one_run, a_text_tells_one_run, legal_live_texts_are_those_of_allowed_runs,
    legal_texts_are_those_of_allowed_runs, the_live_verdict_is_the_first_that_is_wrong,
    the_verdict_is_the_first_that_is_wrong,
};
pub use verdicts::Verdict;
