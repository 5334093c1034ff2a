//! A whole batch of capsules.

ghost use Rattle.std.specs.Prelude.{◌≡◌, ℕ, ◌⊎◌, IfOk, List};
ghost use Rattle.field_text.specs.declared.reasons.Reason.{Reason};
ghost use Rattle.field_text.specs.Readings.{Finds};
ghost use Rattle.request_frames.specs.Batch.{refusal, no_memory};
ghost use Rattle.capsule_frames.specs.declared.lines.CapsulePlan.{CapsulePlan};
ghost use Rattle.capsule_frames.specs.Capsules.{Spells, BadAt, capsules};
ghost use Rattle.capsule_frames.specs.PlanText.{text_of};
ghost use Rattle.capsule_frames.specs.Within.{IsWithin};

use crate::draft::CapsuleDraft;
use crate::lines::CapsulePlan;
use field_text::{ReadBatchFault, read_whole};
use std::alloc::Global;

#[tactic(auto, unfolding(crate::specs::Capsules::capsules))]
fn read(alloc: Global, bytes: &[u8]) -> Result<CapsulePlan, ReadBatchFault>
    ensures read { Finds (λ plan. plan) result (capsules bytes.now) }
    ensures limits { IfOk result IsWithin }
{
    let draft = read_whole::<CapsuleDraft>(alloc, bytes)?;
    Ok(draft.finish())
}

/// The plan that the bytes spell, or the first bad line and its first reason.
///
/// The text is read once. It is refused at its first bad line, whatever stands behind it.
pub fn read_capsules(alloc: Global, bytes: &[u8]) -> Result<CapsulePlan, ReadBatchFault>
    ensures plan { IfOk result (λ plan. Spells bytes.now plan) }
    ensures bad { (line : ℕ) (reason : Reason)
        → result ≡ refusal line reason → BadAt bytes.now line reason }
    ensures refused { (line : ℕ) (reason : Reason) → BadAt bytes.now line reason
        → (result ≡ refusal line reason) ⊎ (result ≡ no_memory) }
    ensures spelled { (plan : CapsulePlan) → Spells bytes.now plan
        → (result ≡ Ok plan) ⊎ (result ≡ no_memory) }
    ensures limits { IfOk result IsWithin }
{
    read(alloc, bytes)
}

/// Each text spells just one plan, or has just one first bad line and reason.
pub fn one_reading()
    ensures plans { (text : List ℕ) (a b : CapsulePlan)
        → Spells text a → Spells text b → a ≡ b }
    ensures reasons { (text : List ℕ) (m n : ℕ) (a b : Reason)
        → BadAt text m a → BadAt text n b → (m ≡ n) × (a ≡ b) }
    ensures apart { (text : List ℕ) (plan : CapsulePlan) (n : ℕ) (reason : Reason)
        → Spells text plan → BadAt text n reason → ⊥ }
    ensures covered { (text : List ℕ) → ((plan : CapsulePlan) × Spells text plan)
        ⊎ ((n : ℕ) × (reason : Reason) × BadAt text n reason) }
{}

/// A text that spells a plan is the text of that plan, so no two texts spell one plan.
///
/// A law of the definitions: the call does nothing.
pub fn one_spelling()
    ensures text { (text : List ℕ) (plan : CapsulePlan) → Spells text plan → text ≡ text_of plan }
    ensures unique { (one other : List ℕ) (plan : CapsulePlan)
        → Spells one plan → Spells other plan → one ≡ other }
{}
