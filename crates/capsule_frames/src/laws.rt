//! What is said of the replies to capsules, each the contract of a function that does no work.

ghost use Rattle.capsule_frames.specs.Laws.{OneReply, OneText, WholeExchanges};
ghost use Rattle.capsule_frames.specs.Refusals.{AsksHaveCauses, AnswersHaveCauses, TakesHaveCauses};

use context_table::laws::one_key_set_up;
use ohttp_capsule::laws::a_whole_exchange;
use ring_core::{Sntrup761, Sntrup857};
use sntrup_kem::laws::both_ends_agree;

/// A plan has one list of replies, and one text is due: both are functions of the plan alone.
pub fn one_reply()
    ensures replies { OneReply }
    ensures text { OneText }
{
    one_key_set_up();
}

/// A whole exchange gives each end the other's text: an ask with a key that was generated, of either
/// parameter set, is answered with its text by each answer that names it, with the same key and
/// identifier and a nonce of the right size, and each take that names both takes the text of the
/// answer.
pub fn whole_exchanges()
    ensures { WholeExchanges }
{
    both_ends_agree::<Sntrup761>();
    both_ends_agree::<Sntrup857>();
    a_whole_exchange::<Sntrup761>();
    a_whole_exchange::<Sntrup857>();
}

/// Each line is refused exactly where the cause stands, the first that applies.
pub fn refusals_have_causes()
    ensures asks { AsksHaveCauses }
    ensures answers { AnswersHaveCauses }
    ensures takes { TakesHaveCauses }
{
    both_ends_agree::<Sntrup761>();
    both_ends_agree::<Sntrup857>();
}
