//! Answers that can be printed, as the contracts of printing want them.

ghost use Rattle.std.specs.Prelude.{length, IsTrue};
ghost use Rattle.std.specs.List.{All};
ghost use Rattle.batch_plans.specs.Replies.{IsInRange, IsPrintable};
ghost use Rattle.batch_plans.specs.AnswersText.{IsAnswered};

use batch_plans::{Answers, LaneAnswers, Plan, Reply};

// Whether the bytes of a reply are in the pool.
pub fn is_in_range(pool: &[u8], reply: &Reply) -> bool
    ensures { IsTrue result → IsInRange (length pool.now) reply.now }
{
    match *reply {
        Reply::Sealed { text, .. } | Reply::Opened { text, .. } | Reply::Exported { text } => {
            text.start as usize + text.len as usize <= pool.len()
        }
        _ => true,
    }
}

fn are_in_range(pool: &[u8], replies: &[Reply]) -> bool
    ensures { IsTrue result → All (IsInRange (length pool.now)) replies.now }
{
    'replies: for reply in replies {
        if !is_in_range(pool, reply) {
            return false;
        }
    }
    true
}

fn is_printable(lane: &LaneAnswers) -> bool
    ensures { IsTrue result → IsPrintable lane.now }
{
    are_in_range(lane.pool.as_slice(), lane.replies.as_slice())
}

fn are_printable(lanes: &[LaneAnswers]) -> bool
    ensures { IsTrue result → All IsPrintable lanes.now }
{
    'lanes: for lane in lanes {
        if !is_printable(lane) {
            return false;
        }
    }
    true
}

// Whether the answers can be printed as those to the plan.
pub fn is_answered(plan: &Plan, answers: &Answers) -> bool
    ensures { IsTrue result → IsAnswered plan.now answers.now }
{
    answers.keys.as_slice().len() == plan.keys.as_slice().len()
        && answers.contexts.as_slice().len() == plan.contexts.as_slice().len()
        && answers.lanes.as_slice().len() == plan.lanes.as_slice().len()
        && answers.journals.as_slice().len() == plan.contexts.as_slice().len()
        && are_printable(answers.lanes.as_slice())
}
