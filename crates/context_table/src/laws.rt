//! What the set-up is for, and what replies have alike, each the contract of a function that does no
//! work.

ghost use Rattle.context_table.specs.Laws.{OneKeySetUp, OneSetUp, EndsMatch};
ghost use Rattle.context_table.specs.Laws.{SealsStay, LiveSealsStay, RepliesStay};

use ring_core::{Sntrup761, Sntrup857};
use sntrup_kem::laws::both_ends_agree;

/// The key lines of a plan have one set-up: it is a function of the plan alone.
pub fn one_key_set_up()
    ensures { OneKeySetUp }
{}

/// A plan has one set-up: it is a function of the plan alone.
pub fn one_set_up()
    ensures { OneSetUp }
{}

/// The two ends of an exchange have the same secrets, and what the sender sealed is opened by the
/// recipient, one message after another.
pub fn ends_match()
    ensures { EndsMatch }
{
    both_ends_agree::<Sntrup761>();
    both_ends_agree::<Sntrup857>();
}

/// Where no two lanes seal on one context, any two texts that `run` may write for a batch answer each
/// seal alike: with the same line `sealed N CT`, or with `limit`, or with the same refusal. So a second
/// run gives no number to another message. It is the same for `live`, where a lane that seals on an
/// added context is also the only one that adds and retires it.
///
/// `may_run_again` of context_books says whether a plan is so.
pub fn seals_stay()
    ensures run { SealsStay }
    ensures live { LiveSealsStay }
{}

/// Where no two lanes seal or open on one context, any two texts that `run` may write for a batch of
/// version 1 have the same lines, one by one, except that a line `batch G M` may have other numbers.
pub fn replies_stay()
    ensures { RepliesStay }
{}
