//! The run of a plan whose lanes add and retire contexts.

ghost use Rattle.std.specs.Prelude.{ℕ, ◌≡◌, ◌↔◌, ◌+◌, ◌<◌, ◌≤◌, None, IfOk, IsSome, length};
ghost use Rattle.std.specs.List.{All};
ghost use Rattle.batch_plans.specs.Within.{IsWithinLimits};
ghost use Rattle.batch_plans.specs.Names.{all_live, line_count};
ghost use Rattle.batch_plans.specs.Room.{room_for};
ghost use Rattle.batch_plans.specs.AnswersText.{IsAnswered};
ghost use Rattle.context_books.specs.Standing.{standing_at};
ghost use Rattle.context_books.specs.ContextLines.{AreOfLines, export_limits};
ghost use Rattle.lane_workers.specs.LiveGathered.{AreOfALiveRun};
ghost use Rattle.lane_workers.specs.LiveLanes.{AddsAre, AddsOneOf, add_refusal};

use crate::live_contexts::LiveContexts;
use crate::serving::{begin, end};
use batch_io::Gate;
use batch_plans::{Answers, PlainList, Plan};
use hpke_context::Context;
use lane_workers::{live_lanes_make_a_run, serve_live};
use std::alloc::{AllocError as OutOfMemory, Global};
use std::sync::Wait;
use std::thread::Threads;

/// Serves the lanes of a plan, which may add and retire contexts, by so many workers, from 1 to 16,
/// on contexts that they share, and fills the answers that were made for the plan and these contexts.
///
/// Behind the contexts of the context lines, `contexts` has one for each `add` line whose psk inputs
/// are in order (RFC 9180, 5.1). Each worker has lanes that stand side by side, and serves them in
/// order (lane_workers). `gate` is told after each draw, after each guess, and when a call's replies
/// stand. All memory is taken before the first call is served; where there is none, the answers are
/// dropped. It may wait.
pub fn run_live<R: Threads + Wait + Sync, G: Gate + Sync>(
    rt: &R,
    alloc: Global,
    plan: &Plan,
    mut contexts: PlainList<Option<Context>>,
    answers: Answers,
    workers: u32,
    gate: &G,
) -> Result<Answers, OutOfMemory>
    requires within { IsWithinLimits plan.now }
    requires named { All (All (AddsOneOf plan.now.added)) plan.now.lanes }
    requires standing { AreOfLines plan.now.contexts contexts }
    requires room { answers ≡ room_for (all_live plan.now) answers.keys answers.contexts
        (export_limits contexts) }
    requires replies { (length answers.keys ≡ length plan.now.keys)
        × (length answers.contexts ≡ length plan.now.contexts) }
    requires adds { AddsAre plan.now answers.contexts }
    requires stands { (name : ℕ) → name < plan.now.added → (add_refusal plan.now name ≡ None)
        ↔ IsSome (standing_at contexts (line_count plan.now + name)) }
    requires workers { (0 < workers) × (workers ≤ 16) }
    ensures run { IfOk result (λ a.
        AreOfALiveRun plan.now answers.contexts contexts a.lanes a.journals a.notes) }
    ensures set_up { IfOk result (λ a.
        (a.keys ≡ answers.keys) × (a.contexts ≡ answers.contexts)) }
    ensures printable { IfOk result (IsAnswered plan.now) }
{
    if plan.lanes.as_slice().is_empty() {
        live_lanes_make_a_run();
        return Ok(answers);
    }
    let placed = plan.lanes_at_positions(alloc)?;
    let contexts = contexts.as_mut_slice();
    let (live, mut left) = LiveContexts::new(alloc, plan, &placed, contexts)?;
    let mut begun = begin(rt, alloc, &live, &mut left, answers)?;
    let shared = &live.shared;
    serve_live(
        rt,
        shared.plan,
        &shared.contexts,
        &live.names,
        &shared.counter,
        &mut begun.lanes,
        workers,
        gate,
    );
    Ok(end(live, left, begun))
}
