//! Whether the lanes of a plan share contexts, and what doesn't depend on their order where they share
//! none.

ghost use Rattle.std.specs.Prelude.{ℕ, ◌≡◌, ◌↔◌, ◌⊎◌, ◌<◌, List, Option, length, true};
ghost use Rattle.std.specs.List.{list_any};
ghost use Rattle.call_places.specs.declared.entries.Entry.{Entry};
ghost use Rattle.call_places.specs.declared.entries.Mark.{Mark};
ghost use Rattle.call_places.specs.declared.entries.Place.{Place};
ghost use Rattle.hpke_context.specs.Contexts.{ContextView};
ghost use Rattle.batch_plans.specs.declared.plan.Plan.{Plan as Plan_};
ghost use Rattle.batch_plans.specs.declared.replies.ContextReply.{ContextReply};
ghost use Rattle.batch_plans.specs.declared.replies.KeyReply.{KeyReply};
ghost use Rattle.batch_plans.specs.Within.{IsPlain, IsWithinLimits};
ghost use Rattle.context_books.specs.Batches.{Batch};
ghost use Rattle.context_books.specs.LaneCalls.{lane_calls};
ghost use Rattle.context_books.specs.Legal.{Legal};
ghost use Rattle.context_books.specs.Live.{IsAllowedLive, live_call_lines, live_run_along};
ghost use Rattle.context_books.specs.Runs.{IsAllowed, call_lines, run_along, run_lines};
ghost use Rattle.context_books.specs.Sharing.{DifferInGuesses, IsOfOneLane, SealsAlike};
ghost use Rattle.context_books.specs.Sharing.{NoOtherSeals, NoTwoLanesMeet, NoTwoLanesSeal, Seals};
ghost use Rattle.context_books.specs.Sharing.{changes_name, seals_on};

use batch_plans::{CallLine, Plan};

// The call seals with the context that stands at this place.
fn seals_on(plan: &Plan, at: usize, call: &CallLine) -> bool
    requires { IsWithinLimits plan.now }
    ensures { result ≡ seals_on plan.now at call.now }
{
    match *call {
        CallLine::Seal { context, .. } => plan.position(context) as usize == at,
        _ => false,
    }
}

// It adds the context, or retires it.
fn changes_name(plan: &Plan, at: usize, call: &CallLine) -> bool
    requires { IsWithinLimits plan.now }
    ensures { result ≡ changes_name plan.now at call.now }
{
    match *call {
        CallLine::Add { name } | CallLine::Retire { name } => {
            plan.contexts.as_slice().len() - plan.added as usize + name as usize == at
        }
        _ => false,
    }
}

// One of the calls seals there.
fn seals(plan: &Plan, at: usize, calls: &[CallLine]) -> bool
    requires { IsWithinLimits plan.now }
    ensures { result ≡ list_any (seals_on plan.now at) calls.now }
{
    calls.iter().any(|call| seals_on(plan, at, call))
}

// One of the calls adds the context, or retires it.
fn changes(plan: &Plan, at: usize, calls: &[CallLine]) -> bool
    requires { IsWithinLimits plan.now }
    ensures { result ≡ list_any (changes_name plan.now at) calls.now }
{
    calls.iter().any(|call| changes_name(plan, at, call))
}

// No lane but this one seals with the context, adds it or retires it.
fn no_other_seals(plan: &Plan, at: usize, lane: usize) -> bool
    requires { IsWithinLimits plan.now }
    ensures { (result ≡ true) ↔ NoOtherSeals plan.now at lane }
{
    'others: for (other, calls) in plan.lanes.as_slice().iter().enumerate() {
        if other != lane
            && (seals(plan, at, calls.as_slice()) || changes(plan, at, calls.as_slice()))
        {
            return false;
        }
    }
    true
}

// At most one lane seals there.
fn seals_alone(plan: &Plan, at: usize) -> bool
    requires { IsWithinLimits plan.now }
    ensures { (result ≡ true) ↔ ((lane : ℕ) → Seals plan.now at lane → NoOtherSeals plan.now at lane) }
{
    'lanes: for (lane, calls) in plan.lanes.as_slice().iter().enumerate() {
        if seals(plan, at, calls.as_slice()) && !no_other_seals(plan, at, lane) {
            return false;
        }
    }
    true
}

/// Whether it is safe to run one and the same batch again by the same command, `run` or `live`: no two
/// lanes seal on one context, nor does one seal on a context that another adds or retires.
///
/// Then each seal has the same answer in every reply, so no number seals a second message. The test looks
/// at the calls alone: those that are refused count too. Takes no memory.
pub fn may_run_again(plan: &Plan) -> bool
    requires { IsWithinLimits plan.now }
    ensures { (result ≡ true) ↔ NoTwoLanesSeal plan.now }
{
    'contexts: for at in 0..plan.contexts.as_slice().len() {
        if !seals_alone(plan, at) {
            return false;
        }
    }
    true
}

/// A context whose places are all of one lane has one legal journal.
pub fn one_lane_alone_has_one_journal()
    ensures { (batch : Batch) (context : ℕ) (journal other : List Place) → IsOfOneLane batch context
        → Legal batch context journal → Legal batch context other → journal ≡ other }
{}

/// Where no two lanes seal on one context, every run answers each seal alike: with the same number and
/// ciphertext, or the same refusal.
pub fn seals_are_answered_alike()
    ensures { (plan : Plan_) (contexts : List (Option ContextView))
        (journals others : List (List Mark)) (guesses further : List (List ℕ))
        → IsPlain plan → length contexts ≡ length plan.contexts → NoTwoLanesSeal plan
        → IsAllowed (run_along plan contexts journals guesses)
        → IsAllowed (run_along plan contexts others further)
        → SealsAlike plan (call_lines (run_along plan contexts journals guesses))
        (call_lines (run_along plan contexts others further)) }
{}

/// The same where lanes add and retire contexts.
pub fn live_seals_are_answered_alike()
    ensures { (plan : Plan_) (replies : List ContextReply) (standing : List (Option ContextView))
        (journals others : List (List Mark)) (guesses further : List (List ℕ))
        (notes remarks : List Entry) → IsWithinLimits plan
        → length standing ≡ length plan.contexts → NoTwoLanesSeal plan
        → IsAllowedLive (live_run_along plan replies standing journals guesses notes)
        → IsAllowedLive (live_run_along plan replies standing others further remarks)
        → SealsAlike plan
        (live_call_lines (live_run_along plan replies standing journals guesses notes))
        (live_call_lines (live_run_along plan replies standing others further remarks)) }
{}

/// Where no two lanes seal or open on one context, version 1 has one reply but for its lines
/// `batch G M`.
pub fn replies_differ_in_guesses()
    ensures { (plan : Plan_) (contexts : List (Option ContextView)) (keys : List KeyReply)
        (replies : List ContextReply) (journals others : List (List Mark))
        (guesses further : List (List ℕ)) → plan.version ≡ 1 → IsPlain plan
        → length contexts ≡ length plan.contexts → NoTwoLanesMeet plan
        → IsAllowed (run_along plan contexts journals guesses)
        → IsAllowed (run_along plan contexts others further)
        → DifferInGuesses (run_lines keys replies (run_along plan contexts journals guesses))
        (run_lines keys replies (run_along plan contexts others further)) }
{}
