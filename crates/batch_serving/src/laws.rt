//! What the commands say of one another.

ghost use Rattle.std.specs.Prelude.{◌≡◌, ◌⊎◌, ℕ, List, true, false};
ghost use Rattle.batch_plans.specs.declared.plan.Plan.{Plan};
ghost use Rattle.batch_plans.specs.Within.{IsWithinLimits};
ghost use Rattle.context_table.specs.ReplyTo.{IsReply, IsLiveReply};
ghost use Rattle.result_lines.specs.declared.verdicts.Verdict.{Verdict};
ghost use Rattle.batch_serving.specs.Text.{IsJudged, IsRehearsal};

/// What `run` and `rehearse` write for a batch is legal where `check` judges it, and what `live` writes
/// where `check --live` does.
pub fn written_replies_are_legal()
    ensures run { (plan : Plan) (schedule text : List ℕ) (verdict : Verdict) → IsWithinLimits plan
        → (IsReply plan text) ⊎ (IsRehearsal schedule plan text) → IsJudged false plan text verdict
        → verdict ≡ Verdict.Legal }
    ensures live { (plan : Plan) (text : List ℕ) (verdict : Verdict) → IsLiveReply plan text
        → IsJudged true plan text verdict → verdict ≡ Verdict.Legal }
{}
