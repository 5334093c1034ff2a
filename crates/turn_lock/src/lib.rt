//! A lock whose turns are numbered by tickets, round a value that represents a list of entries.
//!
//! A [`TurnLock`] is made with a number of passes. Whoever has a [`Pass`] may `enter`, which waits
//! for its turn and gives the value as a [`Held`]; only `leave` takes it back. Once every pass is
//! back in the [`PassList`], `close` gives the value out.
//!
//! A contract sees of a pass the entries that it has seen. The promise for the layer above: at
//! `enter` only other passes have added to them. At `close` the value's entries begin with what
//! each pass has seen, and have in each lane just those that the pass with this number has seen. So
//! no list can be made up for one pass. `specs/Rule.antt` is what holds between any two atomic
//! steps.
//!
//! Nothing here says that a turn comes, or in which order two passes get theirs.
//!
//! Tests: `serving_tests`.
#![tactic(auto)]

mod held;
mod laws;
mod lock;
mod pass_list;
mod passes;
mod rules;
mod views;

pub use held::Held;
pub use laws::{each_step_keeps_the_rule, the_rule_tells_seats_apart};
pub use lock::TurnLock;
pub use pass_list::PassList;
pub use passes::Pass;
