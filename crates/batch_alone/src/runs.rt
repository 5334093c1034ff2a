//! The run of a plan whose lanes add and retire contexts, one lane after another.

ghost use Rattle.std.specs.Prelude.{◌≡◌, [], length, IfOk};
ghost use Rattle.batch_plans.specs.Within.{IsWithinLimits};
ghost use Rattle.batch_plans.specs.AnswersText.{IsAnswered};
ghost use Rattle.context_books.specs.ContextLines.{AreOfLines, export_limits};
ghost use Rattle.context_core.specs.Rehearsals.{rehearsed, AreAnswersOf};
ghost use Rattle.batch_alone.specs.LiveRuns.{IsALiveRun};

use crate::own_replies::put_own_replies;
use crate::stamps::restamp;
use crate::tables::{InTurn, table};
use batch_plans::{Answers, ContextReplies, KeyReplies, LaneLines, PlainList, Plan};
use context_core::rehearse_by;
use hpke_context::Context;
use result_lines::looked_up_lanes;
use speculative_open::Crew;
use std::alloc::{AllocError, Global};
use std::mem;

// Answers the calls of a plan lane by lane. No context counts as added: each call names its own by
// its place.
fn answer_in_order<C: Crew>(
    crew: &C,
    alloc: Global,
    plan: &Plan,
    contexts: &[Option<Context>],
    limits: &[u32],
    keys: KeyReplies,
    adds: ContextReplies,
) -> Result<Answers, AllocError>
    requires ready { C.ready crew.now }
    requires within { IsWithinLimits plan.now }
    requires placed { plan.now.added ≡ 0 }
    requires standing { AreOfLines plan.now.contexts contexts.now }
    requires limits { limits.now ≡ export_limits contexts.now }
    requires replies { (length keys ≡ length plan.now.keys)
        × (length adds ≡ length plan.now.contexts) }
    ensures answered { IfOk result (AreAnswersOf (rehearsed plan.now contexts.now [])) }
    ensures set_up { IfOk result (λ a. (a.keys ≡ keys) × (a.contexts ≡ adds)) }
    ensures printable { IfOk result (IsAnswered plan.now) }
{
    let mut answers = Answers::for_plan(alloc, plan, keys, adds, limits)?;
    rehearse_by(crew, alloc, plan, contexts, &[], &mut answers)?;
    Ok(answers)
}

// The same, where these are the calls as they are served. The plan is as before then.
fn answer_as_served<C: Crew>(
    crew: &C,
    alloc: Global,
    plan: &mut Plan,
    served: LaneLines,
    contexts: &[Option<Context>],
    limits: &[u32],
    keys: KeyReplies,
    adds: ContextReplies,
) -> Result<Answers, AllocError>
    requires ready { C.ready crew.now }
    requires within { IsWithinLimits (record plan.old { lanes = served; added = 0 }) }
    requires standing { AreOfLines plan.old.contexts contexts.now }
    requires limits { limits.now ≡ export_limits contexts.now }
    requires replies { (length keys ≡ length plan.old.keys)
        × (length adds ≡ length plan.old.contexts) }
    ensures answered { IfOk result (AreAnswersOf
        (rehearsed (record plan.old { lanes = served; added = 0 }) contexts.now [])) }
    ensures set_up { IfOk result (λ a. (a.keys ≡ keys) × (a.contexts ≡ adds)) }
    ensures printable { IfOk result (IsAnswered (record plan.old { lanes = served; added = 0 })) }
    ensures plan { plan.new ≡ plan.old }
{
    let calls = mem::replace(&mut plan.lanes, served);
    let added = mem::replace(&mut plan.added, 0);
    let answered = answer_in_order(crew, alloc, plan, contexts, limits, keys, adds);
    plan.lanes = calls;
    plan.added = added;
    answered
}

/// Serves the lanes of a plan, which may add and retire contexts, one after another on the calling
/// thread, and answers the plan.
///
/// Behind the contexts of the context lines, `contexts` has one for each `add` line whose psk inputs
/// are in order (RFC 9180, 5.1). `limits` has for each the most bytes that it exports, and `keys` and
/// `adds` are the replies of the set-up. The crew tests the tags.
///
/// Which calls find their contexts follows from the plan: so the table is made first, and the calls
/// are served as it tells. A stamp counts the notes and the places before it, lane by lane. Where
/// there is no memory all replies are dropped. The plan's lanes change places for a while, and are
/// the same again afterwards.
pub fn run_live_in_order<C: Crew>(
    crew: &C,
    alloc: Global,
    plan: &mut Plan,
    contexts: &[Option<Context>],
    limits: &[u32],
    keys: KeyReplies,
    adds: ContextReplies,
) -> Result<Answers, AllocError>
    requires ready { C.ready crew.now }
    requires within { IsWithinLimits plan.old }
    requires standing { AreOfLines plan.old.contexts contexts.now }
    requires limits { limits.now ≡ export_limits contexts.now }
    requires replies { (length keys ≡ length plan.old.keys)
        × (length adds ≡ length plan.old.contexts) }
    ensures run { IfOk result (IsALiveRun plan.old contexts.now) }
    ensures set_up { IfOk result (λ a. (a.keys ≡ keys) × (a.contexts ≡ adds)) }
    ensures printable { IfOk result (IsAnswered plan.old) }
    ensures plan { plan.new ≡ plan.old }
{
    let InTurn {
        notes,
        stamps,
        live: _,
    } = table(alloc, plan, contexts)?;
    let served = looked_up_lanes(alloc, plan, &notes)?;
    let mut answers = answer_as_served(crew, alloc, plan, served, contexts, limits, keys, adds)?;
    let adds = answers.contexts.as_slice();
    put_own_replies(alloc, plan, adds, &notes, answers.lanes.as_mut_slice())?;
    restamp(&stamps, answers.journals.as_mut_slice());
    answers.notes = PlainList::from_vec(notes);
    Ok(answers)
}
