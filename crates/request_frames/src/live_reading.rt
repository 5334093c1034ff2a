//! A whole batch whose lanes add and retire contexts, and such a batch at the front of a longer text.

ghost use Rattle.std.specs.Prelude.{◌≡◌, ℕ, ◌⊎◌, ◌≤◌, ◌++◌, IfOk, List, length, take};
ghost use Rattle.field_text.specs.declared.reasons.Reason.{Reason};
ghost use Rattle.field_text.specs.Readings.{Finds};
ghost use Rattle.batch_plans.specs.declared.plan.Plan.{Plan};
ghost use Rattle.batch_plans.specs.Limits.{most_input};
ghost use Rattle.batch_plans.specs.Within.{IsWithinLimits};
ghost use Rattle.request_frames.specs.LivePlans.{IsLive};
ghost use Rattle.request_frames.specs.Batch.{refusal, no_memory};
ghost use Rattle.request_frames.specs.PlanText.{text_of};
ghost use Rattle.request_frames.specs.Live.{Spells, BadAt, live, BeginsWith, FrontBadAt};
ghost use Rattle.request_frames.specs.Live.{front_live};

use crate::live_draft::LiveDraft;
use batch_plans::Plan;
use field_text::{ReadBatchFault, read_whole};
use std::alloc::Global;

#[tactic(auto, unfolding(crate::specs::Live::live))]
fn read(alloc: Global, bytes: &[u8]) -> Result<Plan, ReadBatchFault>
    ensures read { Finds (λ plan. plan) result (live bytes.now) }
    ensures limits { IfOk result IsWithinLimits }
    ensures live { IfOk result IsLive }
{
    let draft = read_whole::<LiveDraft>(alloc, bytes)?;
    Ok(draft.batch.finish()?)
}

/// The plan that the bytes spell, or the first bad line and its first reason.
///
/// The contexts of `add` lines stand behind those of context lines, and a call names that of the
/// `add` line K by 65,536 + K. The text is read once, in time linear in its length. A text is
/// refused at its first bad line, whatever stands behind it.
pub fn read_live(alloc: Global, bytes: &[u8]) -> Result<Plan, ReadBatchFault>
    ensures plan { IfOk result (λ plan. Spells bytes.now plan) }
    ensures bad { (line : ℕ) (reason : Reason)
        → result ≡ refusal line reason → BadAt bytes.now line reason }
    ensures refused { (line : ℕ) (reason : Reason) → BadAt bytes.now line reason
        → (result ≡ refusal line reason) ⊎ (result ≡ no_memory) }
    ensures spelled { (plan : Plan) → Spells bytes.now plan
        → (result ≡ Ok plan) ⊎ (result ≡ no_memory) }
    ensures limits { IfOk result IsWithinLimits }
    ensures live { IfOk result IsLive }
{
    read(alloc, bytes)
}

#[tactic(auto, unfolding(crate::specs::Live::front_live))]
fn read_up_to_end(alloc: Global, bytes: &[u8]) -> Result<(Plan, usize), ReadBatchFault>
    ensures read { Finds (λ front. front) result (front_live bytes.now) }
    ensures limits { IfOk result (λ front. IsWithinLimits front.0) }
    ensures live { IfOk result (λ front. IsLive front.0) }
{
    let front = field_text::read_front::<LiveDraft>(alloc, bytes)?;
    let end = bytes.len() - front.rest.len();
    Ok((front.draft.batch.finish()?, end))
}

/// The plan of such a batch at the front of the bytes, and where it ends, or the first bad line and
/// its first reason.
///
/// What stands behind the line `end` is not looked at, but counts for the limit of the input.
pub fn read_live_front(alloc: Global, bytes: &[u8]) -> Result<(Plan, usize), ReadBatchFault>
    ensures front { IfOk result (λ front. BeginsWith bytes.now front.0 front.1) }
    ensures bad { (line : ℕ) (reason : Reason)
        → result ≡ refusal line reason → FrontBadAt bytes.now line reason }
    ensures refused { (line : ℕ) (reason : Reason) → FrontBadAt bytes.now line reason
        → (result ≡ refusal line reason) ⊎ (result ≡ no_memory) }
    ensures found { (plan : Plan) (end : ℕ) → BeginsWith bytes.now plan end
        → (result ≡ Ok (plan, end)) ⊎ (result ≡ no_memory) }
    ensures limits { IfOk result (λ front. IsWithinLimits front.0) }
    ensures live { IfOk result (λ front. IsLive front.0) }
{
    read_up_to_end(alloc, bytes)
}

/// A text begins with such a batch where its first bytes are one, whatever follows them.
///
/// A law of the definitions: the call does nothing.
pub fn live_fronts_are_batches()
    ensures begins { (text : List ℕ) (plan : Plan) (end : ℕ)
        → BeginsWith text plan end → Spells (take end text) plan }
    ensures goes_on { (text rest : List ℕ) (plan : Plan) → Spells text plan
        → length (text ++ rest) ≤ most_input → BeginsWith (text ++ rest) plan (length text) }
{}

/// Each text spells just one plan, or has just one first bad line and reason.
pub fn one_live_reading()
    ensures plans { (text : List ℕ) (a b : Plan) → Spells text a → Spells text b → a ≡ b }
    ensures reasons { (text : List ℕ) (m n : ℕ) (a b : Reason)
        → BadAt text m a → BadAt text n b → (m ≡ n) × (a ≡ b) }
    ensures apart { (text : List ℕ) (plan : Plan) (n : ℕ) (reason : Reason)
        → Spells text plan → BadAt text n reason → ⊥ }
    ensures covered { (text : List ℕ)
        → ((plan : Plan) × Spells text plan) ⊎ ((n : ℕ) × (reason : Reason) × BadAt text n reason) }
{}

/// A text that spells a plan is the text of that plan, so no two texts spell one plan.
///
/// A law of the definitions: the call does nothing.
pub fn one_live_spelling()
    ensures text { (text : List ℕ) (plan : Plan) → Spells text plan → text ≡ text_of plan }
    ensures unique { (one other : List ℕ) (plan : Plan)
        → Spells one plan → Spells other plan → one ≡ other }
{}
