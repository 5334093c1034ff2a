//! Laws of the definitions.

ghost use Rattle.std.specs.Prelude.{ℕ, ◌≡◌, ◌+◌, ◌<◌, Bool, false, List, Option, None, Contains};
ghost use Rattle.call_places.specs.declared.entries.Act.{Act};
ghost use Rattle.call_places.specs.declared.entries.Entry.{Entry};
ghost use Rattle.call_places.specs.declared.entries.Place.{Place};
ghost use Rattle.call_places.specs.declared.entries.Step.TheVariants.{Note};
ghost use Rattle.hpke_context.specs.Contexts.{ContextView};
ghost use Rattle.batch_plans.specs.declared.plan.ContextLine.{ContextLine};
ghost use Rattle.batch_plans.specs.declared.plan.Plan.{Plan};
ghost use Rattle.batch_plans.specs.declared.plan.CallLine.{CallLine};
ghost use Rattle.batch_plans.specs.Calls.{refusal};
ghost use Rattle.batch_plans.specs.Within.{IsWithinLimits};
ghost use Rattle.batch_plans.specs.Names.{line_count};
ghost use Rattle.context_books.specs.Live.{LegalTable, LiveRun, run_of, FoundLive, IsAllowedLive};
ghost use Rattle.context_books.specs.Runs.{journal_of};
ghost use Rattle.context_books.specs.Standing.{standing_at, call_refusal};
ghost use Rattle.context_books.specs.ContextLines.{export_limits, AreOfLines};

/// The contexts that stand refuse a call exactly as their lines do with their export limits, for
/// the same cause: so what a plan tells ahead of its service holds when it is served.
pub fn refusals_agree()
    ensures { (lines : List ContextLine) (contexts : List (Option ContextView)) (call : CallLine)
        → AreOfLines lines contexts
        → refusal lines (export_limits contexts) call ≡ call_refusal contexts call }
{}

/// Where lanes add and retire contexts, an added context serves no call that did not find it live:
/// each place in its journal is of a call whose note looked its name up, and told that it was live.
pub fn a_served_call_was_live()
    ensures { (live : LiveRun) (name : ℕ) (p : Place) → IsWithinLimits live.plan
        → IsAllowedLive live → name < live.plan.added
        → Contains (journal_of (run_of live) (line_count live.plan + name)) p
        → FoundLive live.notes p name }
{}

/// An `add` line whose context isn't set up makes no name live: each note of its name tells that.
pub fn a_refused_context_is_never_live()
    ensures { (plan : Plan) (standing : List (Option ContextView)) (notes : List Entry) (name : ℕ)
        (e : Entry) (act : Act) (live : Bool) → LegalTable plan standing notes
        → standing_at standing (line_count plan + name) ≡ None
        → Contains notes e → e.step ≡ Note name act live → live ≡ false }
{}
