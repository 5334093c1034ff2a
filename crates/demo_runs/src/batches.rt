//! A batch of a demonstration, before its lanes are served and after.

ghost use Rattle.std.specs.Prelude.{IfOk};
ghost use Rattle.batch_plans.specs.Within.{IsWithinLimits, IsPlain};
ghost use Rattle.demo_runs.specs.Batches.{IsBegun};

use batch_plans::{Answers, PlainList, Plan};
use context_table::{Setup, export_limits, set_up};
use hpke_context::Context;
use ring_core::Plain;
use std::alloc::{AllocError, Global};

/// A batch whose keys and contexts are set up: what its lanes need to be served.
#[derive(Drop)]
pub struct DemoBatch {
    pub plan: Plan,
    /// A slot for each context line: its context, or none where it was refused.
    pub standing: PlainList<Option<Context>>,
    /// The replies to keys and contexts, and room for those to the calls.
    pub answers: Answers,
}

/// A batch whose lanes were served.
#[derive(Drop)]
pub struct ServedBatch {
    pub plan: Plan,
    pub answers: Answers,
}

// What a plan's keys and contexts are, and the memory for its answers.
fn prepared(alloc: Global, plan: &Plan) -> Result<(PlainList<Option<Context>>, Answers), AllocError>
    requires within { IsWithinLimits plan.now }
    requires plain { IsPlain plan.now }
    ensures { IfOk result (λ made. IsBegun plan.now
        (record { plan = plan.now; standing = made.0; answers = made.1 })) }
{
    let Setup {
        keys,
        contexts,
        standing,
    } = set_up(alloc, plan, &Plain)?;
    let limits = export_limits(alloc, standing.as_slice())?;
    let answers = Answers::for_plan(alloc, plan, keys, contexts, &limits)?;
    Ok((standing, answers))
}

/// Sets a plan's keys and contexts up, and takes the memory for its answers.
pub(crate) fn begin(alloc: Global, plan: Plan) -> Result<DemoBatch, AllocError>
    requires within { IsWithinLimits plan }
    requires plain { IsPlain plan }
    ensures { IfOk result (IsBegun plan) }
{
    match prepared(alloc, &plan) {
        Ok((standing, answers)) => Ok(DemoBatch {
            plan,
            standing,
            answers,
        }),
        Err(fault) => {
            drop(plan);
            Err(fault)
        }
    }
}
