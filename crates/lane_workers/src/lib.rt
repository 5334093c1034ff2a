//! Lanes of calls on contexts that threads share.
//!
//! A [`LaneWork`] is a lane with its pass of each context, its seat at the counter of stamps, and
//! its answers. [`serve`] serves lanes by a given number of workers: each has a group of
//! neighbouring lanes, and serves them in order, each lane's calls in order. While a lane holds the
//! context's turn, a seal draws its number and an opening commits its items, which also tests the
//! tags that the guess missed. A lane encrypts, decrypts and tests tags ahead while it holds no
//! turn (RFC 9180, 5.2). An opening of several messages tells its guess, and takes a turn to look at
//! the number that is due. One of a single message takes what was due after the lane's last opening,
//! and looks only where that was on another context.
//!
//! [`take_passes`] hands a lane its passes of all contexts, and [`put_passes`] puts them back, as
//! `specs/Handing.antt` says, so that each context can be closed over the passes that it gave.
//!
//! After [`serve`] each lane is as `LaneIsServed` of `specs/Served.antt` says (`AllServed` of
//! `specs/Groups.antt`): what a served lane shows, by its own passes alone.
//! Once every lane was served and every context is closed, the law [`served_lanes_make_a_run`] says
//! that their answers and journals are, with some guesses, those of a run that is allowed.
//!
//! A [`LiveLane`] adds and retires contexts while it is served, and looks one up before it calls
//! it. It also has a pass of the table of names (live_table), and [`serve_live`] serves such lanes.
//! After it each is as `LiveLaneIsServed` of `specs/LiveServed.antt` says (`AllServedLive` of
//! `specs/LiveReturned.antt`), and [`live_lanes_make_a_run`] says the same of all of them, of the
//! closed contexts and of the closed table as the other law.
//!
//! While threads serve lanes, each lane sees the first entries of every context, and knows only of its
//! own entries that they are right. `AllShown` of `specs/Showing.antt` says what each lane then shows,
//! what the contexts show once they are closed, and that the counter gave each stamp once. From that
//! the laws of `showing_laws`, functions that do nothing, prove whole journals: they are one legal
//! history, each place has the reply of the sequential context along its journal (RFC 9180, 5.2), and
//! each guess may have been made.
//!
//! `serve` and `serve_live` may wait for a turn. They take no memory and refuse nothing. Nothing
//! says that a turn ever comes, or in which order lanes get theirs.
//!
//! Tests: `serving_tests` (through `batch_runner`); of what lanes show the row of `src/showing_rows.rt`,
//! which the prover computes.
#![tactic(auto)]

mod calls;
mod laws;
mod live_calls;
mod live_lane;
mod live_serving;
mod passes;
mod serving;
mod showing_laws;
mod showing_rows;
mod works;

pub use laws::{live_lanes_make_a_run, served_lanes_make_a_run};
pub use live_lane::LiveLane;
pub use live_serving::serve_live;
pub use passes::{put_passes, take_passes};
pub use serving::serve;
pub use showing_laws::{
    shown_guesses_may_have_been_made, shown_lanes_are_answered, shown_lanes_have_legal_journals,
};
pub use showing_rows::rows_of_showings;
pub use works::{LanePasses, LaneWork, SharedList};
