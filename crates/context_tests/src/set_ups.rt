//! Set-ups: whole exchanges, and refusals.

mod exchanges;
mod plans;
mod refusals;
