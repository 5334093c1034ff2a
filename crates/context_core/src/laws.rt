//! What holds of every rehearsal.

ghost use Rattle.std.specs.Prelude.{ℕ, List, Option};
ghost use Rattle.hpke_context.specs.Contexts.{ContextView};
ghost use Rattle.batch_plans.specs.declared.plan.Plan.{Plan};
ghost use Rattle.batch_plans.specs.Within.{IsWithinLimits};
ghost use Rattle.context_books.specs.ContextLines.{AreOfLines};
ghost use Rattle.context_books.specs.Runs.{IsAllowed};
ghost use Rattle.context_core.specs.Rehearsals.{rehearsed};

/// Whatever the schedule, the journals of a rehearsal are legal, in both versions, and each of its
/// guesses may have been made.
pub fn every_rehearsal_is_allowed()
    ensures { (plan : Plan) (contexts : List (Option ContextView)) (schedule : List ℕ)
        → IsWithinLimits plan → AreOfLines plan.contexts contexts
        → IsAllowed (rehearsed plan contexts schedule) }
{}
