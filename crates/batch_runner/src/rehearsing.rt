//! A batch, answered in the order of a schedule: `rehearse`.

ghost use Rattle.std.specs.Prelude.{IfOk};
ghost use Rattle.batch_plans.specs.Within.{IsPlain, IsWithinLimits};
ghost use Rattle.batch_plans.specs.AnswersText.{answers_text, IsAnswered};
ghost use Rattle.request_frames.specs.Batch.{batch};
ghost use Rattle.batch_serving.specs.Effects.{Writes};
ghost use Rattle.batch_serving.specs.Text.{AnswersBy, IsRehearsal};

use batch_io::Sink;
use batch_plans::{Answers, Plan};
use batch_serving::{Begun, Outcome, begin, tell_answered, tell_fault};
use batch_words::Mult;
use context_core::rehearse;
use request_frames::read_batch;
use std::alloc::{AllocError, Global};
use std::thread::Threads;

// The answers to a plan whose lanes take their steps by a schedule, and are then answered by threads.
// All memory is taken before the first step.
fn rehearsed_by<R: Threads + Sync>(
    rt: &R,
    alloc: Global,
    plan: &Plan,
    schedule: &[u8],
) -> Result<Answers, AllocError>
    requires within { IsWithinLimits plan.now }
    requires plain { IsPlain plan.now }
    ensures text { IfOk result (λ answers.
        IsRehearsal schedule.now plan.now (answers_text plan.now answers)) }
    ensures answered { IfOk result (IsAnswered plan.now) }
{
    let Begun {
        standing,
        mut answers,
    } = begin(alloc, plan, Mult::Lanes)?;
    rehearse(rt, alloc, plan, standing.as_slice(), schedule, &mut answers)?;
    Ok(answers)
}

/// Answers a batch whose lanes take their steps by a schedule, or tells its first bad line.
pub(crate) fn rehearse_batch<R: Threads + Sync, K: Sink>(
    rt: &R,
    alloc: Global,
    input: &[u8],
    schedule: &[u8],
    sink: &mut K,
) -> Outcome
    ensures { Writes K.written K.faults sink.old sink.new
        (AnswersBy (IsRehearsal schedule.now) (batch input.now)) result }
{
    match read_batch(alloc, input) {
        Ok(plan) => {
            let answered = rehearsed_by(rt, alloc, &plan, schedule);
            let outcome = tell_answered(&plan, answered, sink);
            drop(plan);
            outcome
        }
        Err(fault) => tell_fault(&fault, sink),
    }
}
