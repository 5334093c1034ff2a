//! The replies of a lane, all of whose calls are done.
//!
//! What a call is answered with depends on its last stage alone, and the replies of a lane go into
//! the lane's own room. So lanes may be answered side by side.

ghost use Rattle.std.specs.Prelude.{ℕ, ◌≡◌, ◌<◌, ◌≤◌, List, None, length};
ghost use Rattle.call_places.specs.declared.entries.Step.{Step};
ghost use Rattle.batch_plans.specs.Within.{IsWithinLimits};
ghost use Rattle.batch_plans.specs.Room.{served_batches};
ghost use Rattle.context_books.specs.Standing.{call_refusal};
ghost use Rattle.context_books.specs.ContextLines.{AreOfLines};
ghost use Rattle.context_core.specs.Core.{Core};
ghost use Rattle.context_core.specs.Following.{with_guess, AllDone, LaneIsAnswered, MayReply, Replies};

use crate::lanes::{Lane, Stage, calls_of};
use batch_plans::{Batch, CallLine, LaneProgress, Plan, context_of};
use call_places::Step;
use context_books::{
    Draw, export, finish_opening, finish_seal, items_of_opening, refusal_of, refuse, standing,
};
use hpke_context::Context;

// An opening of several messages keeps its guess.
fn keep_guess(progress: &mut LaneProgress, call: &CallLine, batch: Batch)
    requires { served_batches call.now ≤ progress.old.batches_left }
    ensures { progress.new ≡ with_guess progress.old call.now batch }
{
    if let CallLine::UnsealAll { .. } = call {
        progress.put_batch(batch);
    }
}

// The reply to a seal.
fn answer_seal(
    progress: &mut LaneProgress,
    plan: &Plan,
    contexts: &[Option<Context>],
    call: &CallLine,
    drawn: Draw,
)
    requires { (w : Core) × (l number settled : ℕ) × (steps : List Step)
        × MayReply plan.now contexts.now w l number call.now steps settled (Stage.Drawn drawn)
        progress.old }
    ensures { (steps : List Step) → Replies plan.now contexts.now call.now steps
        (Stage.Drawn drawn) progress.old progress.new }
{
    let CallLine::Seal { context, item } = call else {
        unreachable!()
    };
    let Some(context) = standing(contexts, *context) else {
        unreachable!()
    };
    let pool = plan.pool.as_slice();
    let (aad, text) = (item.aad.of(pool), item.text.of(pool));
    finish_seal(progress, context, drawn, aad, text);
}

// The replies to an opening.
fn answer_opening(
    progress: &mut LaneProgress,
    plan: &Plan,
    contexts: &[Option<Context>],
    call: &CallLine,
    steps: &[Step],
    guess: u64,
    first: u64,
    missed: u32,
    start: usize,
)
    requires { (w : Core) × (l number settled : ℕ)
        × MayReply plan.now contexts.now w l number call.now steps.now settled
        (Stage.Settled guess first missed start) progress.old }
    ensures { Replies plan.now contexts.now call.now steps.now
        (Stage.Settled guess first missed start) progress.old progress.new }
{
    let items = items_of_opening(plan, call);
    let Some(context) = standing(contexts, context_of(call)) else {
        unreachable!()
    };
    let pool = plan.pool.as_slice();
    let steps = &steps[start..][..items.len()];
    finish_opening(progress, context, pool, items, first, steps);
    keep_guess(progress, call, Batch { guess, missed });
}

// The reply to an export.
fn answer_export(
    progress: &mut LaneProgress,
    plan: &Plan,
    contexts: &[Option<Context>],
    call: &CallLine,
)
    requires free { call_refusal contexts.now call.now ≡ None }
    requires may { (w : Core) × (l number settled : ℕ) × (steps : List Step)
        × MayReply plan.now contexts.now w l number call.now steps settled Stage.Fresh
        progress.old }
    ensures { (steps : List Step) → Replies plan.now contexts.now call.now steps Stage.Fresh
        progress.old progress.new }
{
    let CallLine::Export {
        context,
        exporter,
        size,
    } = *call
    else {
        unreachable!()
    };
    let Some(context) = standing(contexts, context) else {
        unreachable!()
    };
    let exporter_context = exporter.of(plan.pool.as_slice());
    export(progress, context, exporter_context, size);
}

// The replies to a call whose last stage this is.
fn answer_call(
    progress: &mut LaneProgress,
    plan: &Plan,
    contexts: &[Option<Context>],
    call: &CallLine,
    steps: &[Step],
    done: Stage,
)
    requires { (w : Core) × (l number settled : ℕ)
        × MayReply plan.now contexts.now w l number call.now steps.now settled done progress.old }
    ensures { Replies plan.now contexts.now call.now steps.now done progress.old progress.new }
{
    if let Some(refusal) = refusal_of(contexts, call) {
        refuse(progress, refusal);
        return;
    }
    match done {
        Stage::Fresh => answer_export(progress, plan, contexts, call),
        Stage::Drawn(drawn) => answer_seal(progress, plan, contexts, call, drawn),
        Stage::Settled {
            guess,
            first,
            missed,
            start,
        } => {
            answer_opening(
                progress, plan, contexts, call, steps, guess, first, missed, start,
            );
        }
        Stage::Guessed(_) | Stage::Tested => unreachable!(),
    }
}

/// Answers all calls of the lane of this number.
pub(crate) fn answer_lane(lane: &mut Lane, plan: &Plan, contexts: &[Option<Context>], number: usize)
    requires within { IsWithinLimits plan.now }
    requires standing { AreOfLines plan.now.contexts contexts.now }
    requires there { number < length plan.now.lanes }
    requires done { (w : Core) × AllDone plan.now contexts.now w number lane.old }
    ensures { (w : Core) → AllDone plan.now contexts.now w number lane.old
        → LaneIsAnswered plan.now contexts.now w number lane.new.progress }
{
    let calls = calls_of(plan, number);
    'calls: for (k, call) in calls.iter().enumerate() {
        answer_call(
            &mut lane.progress,
            plan,
            contexts,
            call,
            lane.steps.as_slice(),
            lane.done[k],
        );
    }
}
