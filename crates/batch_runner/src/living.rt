//! A batch whose lanes add and retire contexts, answered: `live`.

ghost use Rattle.std.specs.Prelude.{◌<◌, ◌≤◌, IfOk};
ghost use Rattle.batch_plans.specs.Within.{IsWithinLimits};
ghost use Rattle.batch_plans.specs.AnswersText.{IsAnswered, live_text};
ghost use Rattle.request_frames.specs.LivePlans.{IsLive};
ghost use Rattle.request_frames.specs.Live.{live};
ghost use Rattle.context_table.specs.ReplyTo.{IsLiveReply};
ghost use Rattle.batch_serving.specs.Effects.{Writes};
ghost use Rattle.batch_serving.specs.Text.{AnswersBy};

use batch_io::{Gate, Sink};
use batch_plans::{Answers, Plan};
use batch_serving::{Begun, Outcome, begin, tell_fault, tell_live_run};
use batch_words::Mult;
use request_frames::read_live;
use shared_runs::run_live;
use std::alloc::{AllocError, Global};
use std::sync::Wait;
use std::thread::Threads;

// The answers to a plan whose lanes are served by so many workers. All memory is taken before the
// first call is answered.
fn served_by<R: Threads + Wait + Sync, G: Gate + Sync>(
    rt: &R,
    alloc: Global,
    plan: &Plan,
    workers: u32,
    mult: Mult,
    gate: &G,
) -> Result<Answers, AllocError>
    requires within { IsWithinLimits plan.now }
    requires live { IsLive plan.now }
    requires workers { (0 < workers) × (workers ≤ 16) }
    ensures text { IfOk result (λ answers. IsLiveReply plan.now (live_text plan.now answers)) }
    ensures answered { IfOk result (IsAnswered plan.now) }
{
    let Begun { standing, answers } = begin(alloc, plan, mult)?;
    run_live(rt, alloc, plan, standing, answers, workers, gate)
}

/// Answers a batch whose lanes add and retire contexts, or tells its first bad line.
pub(crate) fn answer_live<R: Threads + Wait + Sync, K: Sink, G: Gate + Sync>(
    rt: &R,
    alloc: Global,
    input: &[u8],
    workers: u32,
    mult: Mult,
    sink: &mut K,
    gate: &G,
) -> Outcome
    requires workers { (0 < workers) × (workers ≤ 16) }
    ensures { Writes K.written K.faults sink.old sink.new
        (AnswersBy IsLiveReply (live input.now)) result }
{
    match read_live(alloc, input) {
        Ok(plan) => {
            let answered = served_by(rt, alloc, &plan, workers, mult, gate);
            let outcome = tell_live_run(&plan, answered, sink);
            drop(plan);
            outcome
        }
        Err(fault) => tell_fault(&fault, sink),
    }
}
