//! That a plan has one spelling.

ghost use Rattle.std.specs.Prelude.{◌≡◌, ℕ, List};
ghost use Rattle.batch_plans.specs.declared.plan.Plan.{Plan};
ghost use Rattle.request_frames.specs.Batch.{Spells};
ghost use Rattle.request_frames.specs.PlanText.{text_of};

/// A text that spells a plan is the text of that plan, so no two texts spell one plan: each field
/// has one spelling, and the lines have one order.
///
/// A law of the definitions: the call does nothing.
pub fn one_spelling()
    ensures text { (text : List ℕ) (plan : Plan) → Spells text plan → text ≡ text_of plan }
    ensures unique { (one other : List ℕ) (plan : Plan)
        → Spells one plan → Spells other plan → one ≡ other }
{}
