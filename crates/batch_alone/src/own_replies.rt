//! The replies of lines that add and retire contexts.

ghost use Rattle.std.specs.Prelude.{ℕ, ◌≡◌, ◌<◌, ◌≤◌, ◌+◌, [], false, drop, length, get_or, slice_get, slice_index_or, OnOk, List};
ghost use Rattle.batch_plans.specs.declared.replies.Batch.{Batch};
ghost use Rattle.batch_plans.specs.declared.replies.LaneAnswers.{LaneAnswers as LaneAnswers_};
ghost use Rattle.batch_plans.specs.Within.{IsWithinLimits};
ghost use Rattle.batch_plans.specs.AnswersText.{reply_count as reply_count_of, UsesUp};
ghost use Rattle.batch_alone.specs.Own.{add_reply, retire_reply, own_reply, put_at, with_own, with_own_replies};

use batch_plans::{CallLine, CallRefusal, ContextRefusal, ContextReply, LaneAnswers, Plan, Reply};
use call_places::Entry;
use reply_frames::reply_count;
use result_lines::live_calls;
use std::alloc::{AllocError, Global};

// What the line is answered with whose context stands at this place.
fn added(adds: &[ContextReply], at: usize) -> Reply
    ensures { result ≡ add_reply (slice_get adds.now at) }
{
    match adds.get(at) {
        Some(ContextReply::Refused(ContextRefusal::PskPair)) => Reply::Refused(
            CallRefusal::PskPair,
        ),
        Some(ContextReply::Refused(ContextRefusal::PskExtra)) => {
            Reply::Refused(CallRefusal::PskExtra)
        }
        Some(ContextReply::Refused(ContextRefusal::PskMissing)) => {
            Reply::Refused(CallRefusal::PskMissing)
        }
        _ => Reply::Added,
    }
}

fn retired(live: bool) -> Reply
    ensures { result ≡ retire_reply live }
{
    if live {
        Reply::Retired
    } else {
        Reply::Refused(CallRefusal::NoContext)
    }
}

// The reply to a call that no context answers.
fn own_reply(plan: &Plan, adds: &[ContextReply], live: bool, call: &CallLine) -> Option<Reply>
    requires { IsWithinLimits plan.now }
    ensures { result ≡ own_reply plan.now adds.now live call.now }
{
    match *call {
        CallLine::Add { name } => {
            let lines = plan.contexts.as_slice().len() - plan.added as usize;
            Some(added(adds, lines + name as usize))
        }
        CallLine::Retire { .. } => Some(retired(live)),
        CallLine::Seal { .. }
        | CallLine::Unseal { .. }
        | CallLine::UnsealAll { .. }
        | CallLine::Export { .. } => None,
    }
}

// Puts a call's own reply, if it has one, in the place of the one that stands there, and tells where
// the replies of the next call stand.
fn put_reply(own: Option<Reply>, call: &CallLine, at: usize, replies: &mut [Reply]) -> usize
    requires there { at < length replies.old }
    requires few { at + reply_count_of call.now (slice_get (drop at replies.old) 0)
        ≤ length replies.old }
    ensures next { result ≡ at + reply_count_of call.now (slice_get (drop at replies.old) 0) }
    ensures put { replies.new ≡ put_at own at replies.old }
{
    let count = reply_count(call, &replies[at..]);
    if let Some(reply) = own {
        replies[at] = reply;
    }
    at + count
}

// Puts the replies of lines that add and retire contexts into those of a lane, in the place of the
// refusals that stand there. `live` tells of which calls the name was live.
fn put_replies(
    plan: &Plan,
    adds: &[ContextReply],
    live: &[bool],
    calls: &[CallLine],
    replies: &mut [Reply],
)
    requires within { IsWithinLimits plan.now }
    requires live { length live.now ≡ length calls.now }
    requires used { (guesses : List Batch) × UsesUp calls.now replies.old guesses }
    ensures { replies.new ≡ with_own (λ number call.
        own_reply plan.now adds.now (slice_index_or live.now number false) call) 0 calls.now
        replies.old }
{
    let mut at = 0;
    'calls: for (number, call) in calls.iter().enumerate() {
        let own = own_reply(plan, adds, live[number], call);
        at = put_reply(own, call, at, replies);
    }
}

// Puts the own replies of a lane into its answers.
fn put_lane(
    alloc: Global,
    plan: &Plan,
    adds: &[ContextReply],
    notes: &[Entry],
    lane: u32,
    calls: &[CallLine],
    answers: &mut LaneAnswers,
) -> Result<(), AllocError>
    requires within { IsWithinLimits plan.now }
    requires used { UsesUp calls.now answers.old.replies answers.old.batches }
    ensures { OnOk result
        (answers.new ≡ with_own_replies plan.now adds.now notes.now lane calls.now answers.old) }
{
    let live = live_calls(alloc, notes, lane, calls.len())?;
    put_replies(plan, adds, &live, calls, answers.replies.as_mut_slice());
    Ok(())
}

/// Puts the replies of lines that add and retire contexts into the answers of the lanes, in the place
/// of the refusals that stand there. The table has these notes.
pub(crate) fn put_own_replies(
    alloc: Global,
    plan: &Plan,
    adds: &[ContextReply],
    notes: &[Entry],
    answers: &mut [LaneAnswers],
) -> Result<(), AllocError>
    requires within { IsWithinLimits plan.now }
    requires count { length answers.old ≡ length plan.now.lanes }
    requires used { (l : ℕ) (given : LaneAnswers_) → l < length answers.old
        → UsesUp (get_or plan.now.lanes l []) (get_or answers.old l given).replies
        (get_or answers.old l given).batches }
    ensures each { OnOk result ((l : ℕ) (given : LaneAnswers_) → l < length answers.old
        → get_or answers.new l given ≡ with_own_replies plan.now adds.now notes.now l
        (get_or plan.now.lanes l []) (get_or answers.old l given)) }
    ensures size { OnOk result (length answers.new ≡ length answers.old) }
{
    'lanes: for (lane, calls) in plan.lanes.as_slice().iter().enumerate() {
        put_lane(
            alloc,
            plan,
            adds,
            notes,
            lane as u32,
            calls.as_slice(),
            &mut answers[lane],
        )?;
    }
    Ok(())
}
