//! What stands before the first call of a plan is answered.

ghost use Rattle.std.specs.Prelude.{IfOk};
ghost use Rattle.batch_plans.specs.Within.{IsWithinLimits};
ghost use Rattle.batch_serving.specs.Begun.{IsBegun};

use crate::multipliers::Named;
use batch_plans::{Answers, PlainList, Plan};
use batch_words::Mult;
use context_table::{Setup, export_limits, set_up};
use hpke_context::Context;
use std::alloc::{AllocError, Global};

/// A plan whose keys and contexts were set up.
#[derive(Drop)]
pub struct Begun {
    /// A slot for each context line: its context, or none where it was refused.
    pub standing: PlainList<Option<Context>>,
    /// The replies to keys and contexts, and room for those to the calls.
    pub answers: Answers,
}

/// Sets a plan's keys and contexts up, and takes the memory for its answers.
pub fn begin(alloc: Global, plan: &Plan, mult: Mult) -> Result<Begun, AllocError>
    requires { IsWithinLimits plan.now }
    ensures { IfOk result (IsBegun plan.now) }
{
    let Setup {
        keys,
        contexts,
        standing,
    } = set_up(alloc, plan, &Named { name: mult })?;
    let limits = export_limits(alloc, standing.as_slice())?;
    let answers = Answers::for_plan(alloc, plan, keys, contexts, &limits)?;
    Ok(Begun { standing, answers })
}
