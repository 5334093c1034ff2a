//! A counter that gives each stamp once, to callers that each may draw a given number of them, and the
//! stamps of lists under a turn lock.
//!
//! A [`StampCounter`] is made with shares. Each share is a [`StampSeat`] that may draw as many
//! stamps as it has left; a draw is one step on one word, and waits for nobody. A contract sees of
//! a seat the stamps that it drew, and its low, which is above them: its next stamp is at least
//! that. What one seat knows of the count goes to another by `note` and `join`, so that stamps rise
//! from one caller to the next. The promise for the layer above: once one seat has all that was
//! drawn and all that is left, `close` says how many stamps there are, and the drawn ones are the
//! numbers below that, each once. `specs/Rule.antt` is what holds between any two atomic steps.
//!
//! Beside a list under a turn lock lies a seat that may draw as many stamps as the lanes' quotas leave
//! entries. A lane has a seat that may draw nothing: it only knows of the count. In a turn
//! [`draw_stamps`] hands on to the list's seat what the lane's seat knows, draws, and gives the lane a
//! seat that knows of what was drawn. So stamps rise along the list, and along each lane over all lists.
//! `specs/Stamps.antt` has what holds of a list and its seat, and `specs/Turns.antt` what a pass needs
//! for a turn.
//!
//! Nothing here says which caller draws first, holds a list, or takes a turn.
//!
//! Tests: `serving_tests`.
#![tactic(auto)]

mod counter;
mod laws;
mod rules;
mod seats;
mod stamps;
mod views;

pub use counter::StampCounter;
pub use laws::{each_step_keeps_the_rule, the_rule_tells_stamps_apart};
pub use seats::{SeatList, StampSeat};
pub use stamps::draw_stamps;
