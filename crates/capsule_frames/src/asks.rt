//! The asks of a plan.

ghost use Rattle.std.specs.Prelude.{◌≡◌, ◌≢◌, ◌^◌, ◌<◌, ◌≤◌, length, Ok, IfOk, IsSome};
ghost use Rattle.hkdf_labelled.specs.declared.suites.Aead.TheVariants.{ExportOnly};
ghost use Rattle.batch_plans.specs.Within.{IsField};
ghost use Rattle.context_table.specs.Slots.{view_of, HoldKeys};
ghost use Rattle.capsule_frames.specs.Forms.{most_text};
ghost use Rattle.capsule_frames.specs.Within.{IsWithin};
ghost use Rattle.capsule_frames.specs.Lines.{sent_to, sent};
ghost use Rattle.capsule_frames.specs.Orders.{asks_from};

use crate::lines::{CapsuleLine, CapsulePlan};
use crate::replies::CapsuleRefusal;
use crate::results::{AskResult, Sent, push_made};
use batch_plans::Plan;
use call_places::Span;
use context_table::{Key, KeyPair, KeyTable, context_stream};
use hkdf_labelled::{Aead, Kdf};
use ohttp_capsule::ask;
use rand_words::{SeedStream, Words};
use ring_core::Multiplier;
use sntrup_kem::KemParams;
use std::alloc::{AllocError as OutOfMemory, Global};

// An ask line, with its number among the asks.
#[derive(Clone, Copy)]
struct AskJob {
    number: usize,
    key: u32,
    id: u8,
    kdf: Kdf,
    aead: Aead,
    text: Span,
}

// A request to a key, by words of a stream that stands at its first.
fn sent_to<'p, S: KemParams, M: Multiplier>(
    alloc: Global,
    mut words: SeedStream,
    mult: &M,
    key: &KeyPair<S>,
    job: AskJob,
    text: &'p [u8],
) -> Result<AskResult<'p>, OutOfMemory>
    requires start { ⟦<SeedStream as Words>⟧.place words ≡ 0 }
    requires size { S.ENC ≤ 1184 }
    requires aead { job.aead ≢ ExportOnly }
    requires text { length text.now ≤ most_text }
    ensures { IfOk result (λ s. s ≡ Ok (sent_to key.now.kem key.now.public job.id job.kdf job.aead
        (⟦<SeedStream as Words>⟧.word words) text.now)) }
{
    let public = key.public();
    let (asked, request) = ask(
        alloc, &mut words, mult, public, job.id, job.kdf, job.aead, text,
    )?;
    Ok(Ok(Sent::new(asked, request, text)))
}

// The same to a key of either parameter set.
fn sent_by<'p, M: Multiplier>(
    alloc: Global,
    words: SeedStream,
    mult: &M,
    key: &Key,
    job: AskJob,
    text: &'p [u8],
) -> Result<AskResult<'p>, OutOfMemory>
    requires start { ⟦<SeedStream as Words>⟧.place words ≡ 0 }
    requires aead { job.aead ≢ ExportOnly }
    requires text { length text.now ≤ most_text }
    ensures { IfOk result (λ s. s ≡ Ok (sent_to (view_of key.now).kem (view_of key.now).public
        job.id job.kdf job.aead (⟦<SeedStream as Words>⟧.word words) text.now)) }
{
    match key {
        Key::Of761(pair) => sent_to(alloc, words, mult, pair, job, text),
        Key::Of857(pair) => sent_to(alloc, words, mult, pair, job, text),
    }
}

// What asks are made with, besides their lines.
#[derive(Drop)]
struct Client<'a, 'p, M: Multiplier> {
    plan: &'p Plan,
    mult: &'a M,
    keys: &'a KeyTable,
}

impl<'p, M: Multiplier> Client<'_, 'p, M> {
    // What becomes of an ask.
    #[tactic(auto, unfolding(crate::specs::Lines::sent))]
    fn sent(&self, alloc: Global, job: AskJob) -> Result<AskResult<'p>, OutOfMemory>
        requires seed { IsSome self.now.plan.now.seed }
        requires number { job.number < 2 ^ 32 }
        requires aead { job.aead ≢ ExportOnly }
        requires text { IsField most_text (length self.now.plan.now.pool) job.text }
        requires keys { HoldKeys self.now.plan.now self.now.keys.now.replies
            self.now.keys.now.slots }
        ensures { IfOk result (λ s. s ≡ sent self.now.plan.now self.now.keys.now.replies
            job.number job.key job.id job.kdf job.aead job.text) }
    {
        let text = job.text.of(self.plan.pool.as_slice());
        let words = context_stream(self.plan, job.number);
        match self.keys.key(job.key) {
            None => Ok(Err(CapsuleRefusal::NoKey)),
            Some(key) => sent_by(alloc, words, self.mult, key, job, text),
        }
    }
}

/// What becomes of the asks of a plan, in their order.
#[inline(never)]
pub(crate) fn all_asks<'p, M: Multiplier>(
    alloc: Global,
    plan: &'p CapsulePlan,
    mult: &M,
    keys: &KeyTable,
) -> Result<Vec<AskResult<'p>>, OutOfMemory>
    requires within { IsWithin plan.now }
    requires keys { HoldKeys plan.now.plan keys.now.replies keys.now.slots }
    ensures { IfOk result (λ v. v.items
        ≡ asks_from plan.now.plan keys.now.replies 0 plan.now.lines) }
{
    let client = Client {
        plan: &plan.plan,
        mult,
        keys,
    };
    let lines = plan.lines.as_slice();
    let mut asks = Vec::new(alloc);
    'lines: for line in lines {
        if let CapsuleLine::Ask {
            key,
            id,
            kdf,
            aead,
            text,
        } = *line
        {
            let number = asks.len();
            let job = AskJob {
                number,
                key,
                id,
                kdf,
                aead,
                text,
            };
            push_made(&mut asks, client.sent(alloc, job))?;
        }
    }
    Ok(asks)
}
