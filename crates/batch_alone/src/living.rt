//! A batch whose lanes add and retire contexts, answered: `live`.

ghost use Rattle.std.specs.Prelude.{◌≡◌, IfOk};
ghost use Rattle.batch_plans.specs.Within.{IsWithinLimits};
ghost use Rattle.batch_plans.specs.AnswersText.{IsAnswered, live_text};
ghost use Rattle.request_frames.specs.Live.{live};
ghost use Rattle.context_table.specs.ReplyTo.{IsLiveReply};
ghost use Rattle.batch_serving.specs.Effects.{Writes};
ghost use Rattle.batch_serving.specs.Text.{AnswersBy};

use crate::runs::run_live_in_order;
use batch_io::Sink;
use batch_plans::{Answers, Plan};
use batch_serving::{Named, Outcome, tell_fault, tell_live_run};
use batch_words::Mult;
use context_table::{Setup, export_limits, set_up};
use request_frames::read_live;
use speculative_open::Crew;
use std::alloc::{AllocError, Global};

// The answers to a plan whose lanes go to their ends one after another. The plan is as before then.
fn answered_live_in_order<C: Crew>(
    crew: &C,
    alloc: Global,
    plan: &mut Plan,
    mult: Mult,
) -> Result<Answers, AllocError>
    requires ready { C.ready crew.now }
    requires within { IsWithinLimits plan.old }
    ensures text { IfOk result (λ answers. IsLiveReply plan.old (live_text plan.old answers)) }
    ensures answered { IfOk result (IsAnswered plan.old) }
    ensures plan { plan.new ≡ plan.old }
{
    let Setup {
        keys,
        contexts,
        standing,
    } = set_up(alloc, plan, &Named { name: mult })?;
    let limits = export_limits(alloc, standing.as_slice())?;
    run_live_in_order(
        crew,
        alloc,
        plan,
        standing.as_slice(),
        &limits,
        keys,
        contexts,
    )
}

/// Answers a batch whose lanes add and retire contexts, one lane after another, or tells its first bad
/// line.
pub(crate) fn live_in_order<C: Crew, K: Sink>(
    crew: &C,
    alloc: Global,
    input: &[u8],
    mult: Mult,
    sink: &mut K,
) -> Outcome
    requires { C.ready crew.now }
    ensures { Writes K.written K.faults sink.old sink.new
        (AnswersBy IsLiveReply (live input.now)) result }
{
    match read_live(alloc, input) {
        Ok(mut plan) => {
            let answered = answered_live_in_order(crew, alloc, &mut plan, mult);
            let outcome = tell_live_run(&plan, answered, sink);
            drop(plan);
            outcome
        }
        Err(fault) => tell_fault(&fault, sink),
    }
}
