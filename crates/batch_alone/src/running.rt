//! A batch, answered with its lanes one after another: `run`.

ghost use Rattle.std.specs.Prelude.{IfOk};
ghost use Rattle.batch_plans.specs.Within.{IsPlain, IsWithinLimits};
ghost use Rattle.batch_plans.specs.AnswersText.{answers_text, IsAnswered};
ghost use Rattle.request_frames.specs.Batch.{batch};
ghost use Rattle.context_table.specs.ReplyTo.{IsReply};
ghost use Rattle.batch_serving.specs.Effects.{Writes};
ghost use Rattle.batch_serving.specs.Text.{AnswersBy};

use crate::rehearsing::rehearsed_by;
use batch_io::Sink;
use batch_plans::{Answers, Plan};
use batch_serving::{Outcome, tell_answered, tell_fault};
use batch_words::Mult;
use request_frames::read_batch;
use speculative_open::Crew;
use std::alloc::{AllocError, Global};

// The answers to a plan whose lanes go to their ends one after another.
fn answered_in_order<C: Crew>(
    crew: &C,
    alloc: Global,
    plan: &Plan,
    mult: Mult,
) -> Result<Answers, AllocError>
    requires ready { C.ready crew.now }
    requires within { IsWithinLimits plan.now }
    requires plain { IsPlain plan.now }
    ensures text { IfOk result (λ answers. IsReply plan.now (answers_text plan.now answers)) }
    ensures answered { IfOk result (IsAnswered plan.now) }
{
    rehearsed_by(crew, alloc, plan, mult, &[])
}

/// Answers a batch with its lanes one after another, or tells its first bad line.
pub(crate) fn run_in_order<C: Crew, K: Sink>(
    crew: &C,
    alloc: Global,
    input: &[u8],
    mult: Mult,
    sink: &mut K,
) -> Outcome
    requires { C.ready crew.now }
    ensures { Writes K.written K.faults sink.old sink.new
        (AnswersBy IsReply (batch input.now)) result }
{
    match read_batch(alloc, input) {
        Ok(plan) => {
            let answered = answered_in_order(crew, alloc, &plan, mult);
            let outcome = tell_answered(&plan, answered, sink);
            drop(plan);
            outcome
        }
        Err(fault) => tell_fault(&fault, sink),
    }
}
