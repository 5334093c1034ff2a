//! What a verdict is worth.

ghost use Rattle.std.specs.Prelude.{◌≡◌, ◌↔◌, ℕ, List, Option, length};
ghost use Rattle.call_places.specs.declared.entries.Entry.{Entry};
ghost use Rattle.call_places.specs.declared.entries.Mark.{Mark};
ghost use Rattle.hpke_context.specs.Contexts.{ContextView};
ghost use Rattle.batch_plans.specs.declared.plan.Plan.{Plan};
ghost use Rattle.batch_plans.specs.declared.replies.KeyReply.{KeyReply};
ghost use Rattle.batch_plans.specs.declared.replies.ContextReply.{ContextReply};
ghost use Rattle.batch_plans.specs.Within.{IsWithinLimits};
ghost use Rattle.context_books.specs.Live.{IsAllowedLive, live_run_text, live_run_along};
ghost use Rattle.context_books.specs.Runs.{IsAllowed, run_text, run_along};
ghost use Rattle.result_lines.specs.Tables.{table_told};
ghost use Rattle.result_lines.specs.Told.{told_by};
ghost use Rattle.result_lines.specs.ToldLive.{told_live_by};
ghost use Rattle.result_lines.specs.declared.verdicts.Verdict.{Verdict};
ghost use Rattle.result_lines.specs.OneRun.{PrintTheSame, AreOneLiveRun};
ghost use Rattle.result_lines.specs.LiveVerdicts.{IsLiveVerdictBy};
ghost use Rattle.result_lines.specs.Verdicts.{IsVerdictBy};
ghost use Rattle.result_lines.specs.Computed.{by_form, live_by_form};

/// Over given replies to the set-up and given contexts a text is legal exactly where there are
/// journals and guesses that are allowed and whose text it is.
pub fn legal_texts_are_those_of_allowed_runs()
    ensures { (plan : Plan) (keys : List KeyReply) (replies : List ContextReply)
        (contexts : List (Option ContextView)) (text : List ℕ) → IsWithinLimits plan
        → length contexts ≡ length plan.contexts
        → IsVerdictBy plan contexts (told_by plan keys replies contexts text) Verdict.Legal
        ↔ ((journals : List (List Mark)) × (guesses : List (List ℕ))
        × IsAllowed (run_along plan contexts journals guesses)
        × (text ≡ run_text keys replies (run_along plan contexts journals guesses))) }
{}

/// A text is that of one run alone: two runs that are allowed and have one text have the same
/// guesses and the same places in their journals, and in version 2 the same stamps.
pub fn a_text_tells_one_run()
    ensures { (plan : Plan) (keys : List KeyReply) (replies : List ContextReply)
        (contexts : List (Option ContextView)) (journals others : List (List Mark))
        (guesses further : List (List ℕ)) → IsWithinLimits plan
        → length contexts ≡ length plan.contexts
        → IsAllowed (run_along plan contexts journals guesses)
        → IsAllowed (run_along plan contexts others further)
        → run_text keys replies (run_along plan contexts journals guesses)
        ≡ run_text keys replies (run_along plan contexts others further)
        → PrintTheSame (run_along plan contexts journals guesses)
        (run_along plan contexts others further) }
{}

/// Over given replies to the set-up and given contexts a text is legal, as a result whose lanes add
/// and retire contexts, exactly where there are journals, guesses and a table that are allowed
/// together and whose text it is.
pub fn legal_live_texts_are_those_of_allowed_runs()
    ensures { (plan : Plan) (keys : List KeyReply) (replies : List ContextReply)
        (standing : List (Option ContextView)) (text : List ℕ) → IsWithinLimits plan
        → IsLiveVerdictBy plan replies standing (table_told plan standing text)
        (told_live_by plan keys replies standing (table_told plan standing text) text) Verdict.Legal
        ↔ ((journals : List (List Mark)) × (guesses : List (List ℕ)) × (notes : List Entry)
        × IsAllowedLive (live_run_along plan replies standing journals guesses notes)
        × (text ≡ live_run_text keys (live_run_along plan replies standing journals guesses notes))) }
{}

/// A text is that of one run alone: two runs that are allowed and have one text have the same
/// guesses, the same journals and the same table.
pub fn a_live_text_tells_one_run()
    ensures { (plan : Plan) (keys : List KeyReply) (replies : List ContextReply)
        (standing : List (Option ContextView)) (journals others : List (List Mark))
        (guesses further : List (List ℕ)) (notes tables : List Entry) → IsWithinLimits plan
        → IsAllowedLive (live_run_along plan replies standing journals guesses notes)
        → IsAllowedLive (live_run_along plan replies standing others further tables)
        → live_run_text keys (live_run_along plan replies standing journals guesses notes)
        ≡ live_run_text keys (live_run_along plan replies standing others further tables)
        → AreOneLiveRun (live_run_along plan replies standing journals guesses notes)
        (live_run_along plan replies standing others further tables) }
{}

/// The verdict that the tests of `specs/Computed.antt` find is the first thing that is wrong, and a
/// result has no other one.
pub fn the_verdict_is_the_first_that_is_wrong()
    ensures { (plan : Plan) (keys : List KeyReply) (replies : List ContextReply)
        (contexts : List (Option ContextView)) (text : List ℕ) (verdict : Verdict)
        → IsWithinLimits plan → length contexts ≡ length plan.contexts
        → IsVerdictBy plan contexts (told_by plan keys replies contexts text) verdict
        ↔ (verdict ≡ by_form plan contexts (told_by plan keys replies contexts text)) }
{}

/// The same of a result whose lanes add and retire contexts.
pub fn the_live_verdict_is_the_first_that_is_wrong()
    ensures { (plan : Plan) (keys : List KeyReply) (replies : List ContextReply)
        (standing : List (Option ContextView)) (text : List ℕ) (verdict : Verdict)
        → IsWithinLimits plan → length standing ≡ length plan.contexts
        → IsLiveVerdictBy plan replies standing (table_told plan standing text)
        (told_live_by plan keys replies standing (table_told plan standing text) text) verdict
        ↔ (verdict ≡ live_by_form plan replies standing (table_told plan standing text)
        (told_live_by plan keys replies standing (table_told plan standing text) text)) }
{}
