//! How many notes each lane may make in the table of names.

ghost use Rattle.std.specs.Prelude.{◌≡◌, ◌↔◌, ◌-◌, ◌<◌, ◌≤◌, ◌^◌, All, IfOk, IsTrue, length, sum, sum_by};
ghost use Rattle.batch_plans.specs.Limits.{first_name, most_contexts};
ghost use Rattle.batch_plans.specs.Within.{IsWithinLimits};
ghost use Rattle.lane_workers.specs.LiveLanes.{AddsOneOf};
ghost use Rattle.shared_runs.specs.Noting.{notes_of, note_quota, note_quotas};

use batch_plans::{CallLine, FIRST_NAME, Plan, context_of};
use context_books::standing;
use hpke_context::Context;
use std::alloc::{AllocError as OutOfMemory, Global};

// Whether a call on the context of this number is one on a name of the plan.
fn is_name(plan: &Plan, number: u32) -> bool
    ensures { IsTrue result ↔ ((first_name ≤ number) × (number - first_name < plan.now.added)) }
{
    FIRST_NAME <= number && number - FIRST_NAME < plan.added
}

// How many notes a call makes.
fn notes_of(plan: &Plan, contexts: &[Option<Context>], call: &CallLine) -> u32
    requires contexts { length plan.now.contexts ≤ most_contexts }
    requires added { plan.now.added ≤ length plan.now.contexts }
    requires named { AddsOneOf plan.now.added call.now }
    ensures { result ≡ notes_of plan.now contexts.now call.now }
{
    let noted = match *call {
        CallLine::Add { name } => {
            let lines = plan.contexts.as_slice().len() as u32 - plan.added;
            standing(contexts, lines + name).is_some()
        }
        CallLine::Retire { name } => name < plan.added,
        _ => is_name(plan, context_of(call)),
    };
    u32::from(noted)
}

// How many notes the calls of a lane make.
fn note_quota(plan: &Plan, contexts: &[Option<Context>], calls: &[CallLine]) -> u32
    requires contexts { length plan.now.contexts ≤ most_contexts }
    requires added { plan.now.added ≤ length plan.now.contexts }
    requires calls { All (AddsOneOf plan.now.added) calls.now × (length calls.now < 2 ^ 32) }
    ensures { result ≡ note_quota plan.now contexts.now calls.now }
{
    let mut sum = 0;
    'calls: for call in calls {
        sum += notes_of(plan, contexts, call);
    }
    sum
}

/// How many notes each lane may make.
pub(crate) fn note_quotas(
    alloc: Global,
    plan: &Plan,
    contexts: &[Option<Context>],
) -> Result<Vec<u32>, OutOfMemory>
    requires within { IsWithinLimits plan.now }
    requires named { All (All (AddsOneOf plan.now.added)) plan.now.lanes }
    ensures { IfOk result (λ quotas. quotas.items ≡ note_quotas plan.now contexts.now) }
{
    let lanes = plan.lanes.as_slice();
    let mut quotas = Vec::with_capacity(alloc, lanes.len())?;
    'lanes: for calls in lanes {
        quotas.push_reserved(note_quota(plan, contexts, calls.as_slice()));
    }
    Ok(quotas)
}

/// How many notes all lanes may make.
pub(crate) fn total(quotas: &[u32]) -> u32
    requires { sum quotas.now ≤ 65536 }
    ensures { result ≡ sum quotas.now }
{
    quotas.iter().sum()
}
