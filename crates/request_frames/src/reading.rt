//! A whole batch, and a batch at the front of a longer text.

ghost use Rattle.std.specs.Prelude.{◌≡◌, ◌≢◌, ℕ, ◌⊎◌, ◌≤◌, ◌++◌, IfOk, List, length, take};
ghost use Rattle.field_text.specs.declared.reasons.Reason.{Reason};
ghost use Rattle.field_text.specs.Readings.{Finds};
ghost use Rattle.batch_plans.specs.declared.plan.Plan.{Plan};
ghost use Rattle.request_frames.specs.Batch.{Spells, BadAt, batch, refusal, no_memory, BeginsWith};
ghost use Rattle.request_frames.specs.Batch.{FrontBadAt, front_batch};
ghost use Rattle.batch_plans.specs.Limits.{most_input};
ghost use Rattle.batch_plans.specs.Within.{IsWithinLimits, IsPlain};

use crate::draft::BatchDraft;
use batch_plans::Plan;
use field_text::{ReadBatchFault, read_whole};
use std::alloc::Global;

#[tactic(auto, unfolding(crate::specs::Batch::batch))]
fn read(alloc: Global, bytes: &[u8]) -> Result<Plan, ReadBatchFault>
    ensures read { Finds (λ plan. plan) result (batch bytes.now) }
    ensures limits { IfOk result IsWithinLimits }
    ensures plain { IfOk result IsPlain }
{
    let draft = read_whole::<BatchDraft>(alloc, bytes)?;
    Ok(draft.finish()?)
}

/// The plan that the bytes spell, or the first bad line and its first reason.
///
/// The text is read once, in time linear in its length. A text is refused at its first bad line,
/// whatever stands behind it.
pub fn read_batch(alloc: Global, bytes: &[u8]) -> Result<Plan, ReadBatchFault>
    ensures plan { IfOk result (λ plan. Spells bytes.now plan) }
    ensures bad { (line : ℕ) (reason : Reason)
        → result ≡ refusal line reason → BadAt bytes.now line reason }
    ensures refused { (line : ℕ) (reason : Reason) → BadAt bytes.now line reason
        → (result ≡ refusal line reason) ⊎ (result ≡ no_memory) }
    ensures spelled { (plan : Plan) → Spells bytes.now plan
        → (result ≡ Ok plan) ⊎ (result ≡ no_memory) }
    ensures limits { IfOk result IsWithinLimits }
    ensures plain { IfOk result IsPlain }
{
    read(alloc, bytes)
}

#[tactic(auto, unfolding(crate::specs::Batch::front_batch))]
fn read_up_to_end(alloc: Global, bytes: &[u8]) -> Result<(Plan, usize), ReadBatchFault>
    ensures read { Finds (λ front. front) result (front_batch bytes.now) }
    ensures limits { IfOk result (λ front. IsWithinLimits front.0) }
    ensures plain { IfOk result (λ front. IsPlain front.0) }
{
    let front = field_text::read_front::<BatchDraft>(alloc, bytes)?;
    let end = bytes.len() - front.rest.len();
    Ok((front.draft.finish()?, end))
}

/// The plan of a batch at the front of the bytes, and where it ends, or the first bad line and its
/// first reason.
///
/// What stands behind the line `end` is not looked at, but counts for the limit of the input.
pub fn read_front(alloc: Global, bytes: &[u8]) -> Result<(Plan, usize), ReadBatchFault>
    ensures front { IfOk result (λ front. BeginsWith bytes.now front.0 front.1) }
    ensures bad { (line : ℕ) (reason : Reason)
        → result ≡ refusal line reason → FrontBadAt bytes.now line reason }
    ensures refused { (line : ℕ) (reason : Reason) → FrontBadAt bytes.now line reason
        → (result ≡ refusal line reason) ⊎ (result ≡ no_memory) }
    ensures found { (plan : Plan) (end : ℕ) → BeginsWith bytes.now plan end
        → (result ≡ Ok (plan, end)) ⊎ (result ≡ no_memory) }
    ensures limits { IfOk result (λ front. IsWithinLimits front.0) }
    ensures plain { IfOk result (λ front. IsPlain front.0) }
{
    read_up_to_end(alloc, bytes)
}

/// A text begins with a batch where its first bytes are one, whatever follows them, and no line of
/// it is bad but for what stands behind it.
///
/// A law of the definitions: the call does nothing.
pub fn fronts_are_batches()
    ensures begins { (text : List ℕ) (plan : Plan) (end : ℕ)
        → BeginsWith text plan end → Spells (take end text) plan }
    ensures goes_on { (text rest : List ℕ) (plan : Plan) → Spells text plan
        → length (text ++ rest) ≤ most_input → BeginsWith (text ++ rest) plan (length text) }
    ensures faults { (text : List ℕ) (line : ℕ) (reason : Reason)
        → FrontBadAt text line reason → BadAt text line reason }
    ensures no_other { (text : List ℕ) (line : ℕ) (reason : Reason) → BadAt text line reason
        → reason ≢ Reason.Trailing → FrontBadAt text line reason }
{}

/// Each text spells just one plan, or has just one first bad line and reason.
pub fn one_reading()
    ensures plans { (text : List ℕ) (a b : Plan) → Spells text a → Spells text b → a ≡ b }
    ensures reasons { (text : List ℕ) (m n : ℕ) (a b : Reason)
        → BadAt text m a → BadAt text n b → (m ≡ n) × (a ≡ b) }
    ensures apart { (text : List ℕ) (plan : Plan) (n : ℕ) (reason : Reason)
        → Spells text plan → BadAt text n reason → ⊥ }
    ensures covered { (text : List ℕ)
        → ((plan : Plan) × Spells text plan) ⊎ ((n : ℕ) × (reason : Reason) × BadAt text n reason) }
{}
