//! The run of a plan whose contexts stay.

ghost use Rattle.std.specs.Prelude.{◌≡◌, ◌<◌, ◌≤◌, IfOk, length};
ghost use Rattle.batch_plans.specs.Within.{IsWithinLimits};
ghost use Rattle.batch_plans.specs.Room.{room_for};
ghost use Rattle.batch_plans.specs.AnswersText.{IsAnswered};
ghost use Rattle.context_books.specs.ContextLines.{AreOfLines, export_limits};
ghost use Rattle.lane_workers.specs.Gathered.{AreOfARun};

use crate::serving::{begin, end};
use crate::tables::Table;
use batch_io::Gate;
use batch_plans::{Answers, PlainList, Plan};
use hpke_context::Context;
use lane_workers::{serve, served_lanes_make_a_run};
use std::alloc::{AllocError as OutOfMemory, Global};
use std::sync::Wait;
use std::thread::Threads;

/// Serves the lanes of a plan by so many workers, from 1 to 16, on contexts that they share, and
/// fills the answers that were made for the plan and these contexts.
///
/// Each worker has lanes that stand side by side, and serves them in order (lane_workers). `gate` is
/// told after each draw, after each guess, and when a call's replies stand. All memory is taken
/// before the first call is served; where there is none, the answers are dropped. It may wait.
pub fn run_lanes<R: Threads + Wait + Sync, G: Gate + Sync>(
    rt: &R,
    alloc: Global,
    plan: &Plan,
    mut contexts: PlainList<Option<Context>>,
    answers: Answers,
    workers: u32,
    gate: &G,
) -> Result<Answers, OutOfMemory>
    requires within { IsWithinLimits plan.now }
    requires standing { AreOfLines plan.now.contexts contexts }
    requires room { answers ≡ room_for plan.now answers.keys answers.contexts
        (export_limits contexts) }
    requires replies { (length answers.keys ≡ length plan.now.keys)
        × (length answers.contexts ≡ length plan.now.contexts) }
    requires workers { (0 < workers) × (workers ≤ 16) }
    ensures run { IfOk result (λ a. AreOfARun plan.now contexts a.lanes a.journals) }
    ensures set_up { IfOk result (λ a.
        (a.keys ≡ answers.keys) × (a.contexts ≡ answers.contexts)) }
    ensures printable { IfOk result (IsAnswered plan.now) }
{
    if plan.lanes.as_slice().is_empty() {
        served_lanes_make_a_run();
        return Ok(answers);
    }
    let contexts = contexts.as_mut_slice();
    let (table, mut left, _) = Table::new(alloc, plan, &plan.lanes, contexts, 0)?;
    let mut begun = begin(rt, alloc, &table, &mut left, answers)?;
    let counter = Some(&table.counter);
    serve(
        rt,
        table.plan,
        &table.contexts,
        counter,
        &mut begun.lanes,
        workers,
        gate,
    );
    Ok(end(table, left, begun))
}
