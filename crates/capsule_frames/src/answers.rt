//! The answers of a plan, by several threads or by the calling thread alone.

ghost use Rattle.std.specs.Prelude.{◌≡◌, ◌≢◌, ◌≤◌, ◌<◌, ℕ, map, length, slice_get, Some, Ok, IfOk, IfSome, OnOk, All, option_copied};
ghost use Rattle.context_table.specs.Slots.{HoldKeys};
ghost use Rattle.capsule_frames.specs.Forms.{most_text, most_request};
ghost use Rattle.capsule_frames.specs.Within.{IsMessageWithin, IsWithin};
ghost use Rattle.capsule_frames.specs.declared.jobs.AnswerJob.{AnswerJob};
ghost use Rattle.capsule_frames.specs.Lines.{request_at, given_with};
ghost use Rattle.capsule_frames.specs.Orders.{IsJobWithin, jobs_from, given_for, AreGiven};

use crate::finding::{first, left_by, refused};
use crate::jobs::{AnswerJob, jobs};
use crate::known::KnownText;
use crate::lines::CapsulePlan;
use crate::replies::CapsuleRefusal;
use crate::results::{AnswerResult, AskResult, Given, push_last, push_made};
use aes_gcm::MayCheck;
use batch_plans::{EncField, Plan};
use context_table::{Key, KeyPair, KeyTable};
use ohttp_capsule::answer_by;
use ring_core::Multiplier;
use sntrup_kem::KemParams;
use std::alloc::{AllocError as OutOfMemory, Global};
use std::thread::{Threads, for_each_mut};

/// The most threads that answer at once.
const MOST_THREADS: usize = 16;

// The request of an answer: bytes of its line, or what an earlier ask made.
fn request_at<'a>(pool: &'a [u8], asks: &'a [AskResult], request: EncField) -> Option<&'a [u8]>
    requires { IsMessageWithin most_request (length pool.now) request }
    ensures request { option_copied result ≡ request_at pool.now asks.now request }
    ensures size { IfSome result (λ r. length r.now ≤ most_request) }
{
    match request {
        EncField::Bytes(bytes) => Some(bytes.of(pool)),
        EncField::Of(number) => Some(left_by(asks, number)?.request()),
    }
}

// The text that a request has where it is that of an ask, with a key of that ask: the ask's.
fn text_asked<'p>(asks: &[AskResult<'p>], request: EncField) -> &'p [u8] {
    let EncField::Of(number) = request else {
        return &[];
    };
    match left_by(asks, number) {
        Some(sent) => sent.text(),
        None => &[],
    }
}

// What an answer is made of, besides its key: the key identifier, the request where there is one, a
// text that it may have, the nonce and the text.
#[derive(Drop)]
struct AnswerParts<'a, 'p> {
    id: u8,
    request: Option<&'a [u8]>,
    known: &'p [u8],
    nonce: &'a [u8],
    text: &'p [u8],
}

// The answer of a key to a request, where there is one.
fn given_with<'p, S: KemParams, M: Multiplier>(
    permission: MayCheck,
    alloc: Global,
    mult: &M,
    key: &KeyPair<S>,
    parts: &AnswerParts<'_, 'p>,
) -> Result<AnswerResult<'p>, OutOfMemory>
    requires request { IfSome parts.now.request (λ r. length r.now ≤ most_request) }
    requires text { length parts.now.text.now ≤ most_text }
    ensures { IfOk result (λ g. g ≡ given_with key.now.kem key.now.secret parts.now.id
        (option_copied parts.now.request) parts.now.nonce.now parts.now.text.now) }
{
    let Some(secret) = key.secret() else {
        return Ok(Err(CapsuleRefusal::NeedSecret));
    };
    let Some(request) = parts.request else {
        return Ok(Err(CapsuleRefusal::NoAsk));
    };
    let (id, nonce, text) = (parts.id, parts.nonce, parts.text);
    match answer_by(permission, alloc, mult, secret, id, request, nonce, text) {
        Ok((question, response)) => {
            let question = KnownText::held_in(parts.known, question);
            Ok(Ok(Given::new(question, response, text)))
        }
        Err(fault) => refused(fault),
    }
}

// What answers are made with, besides their lines.
#[derive(Drop)]
struct Gateway<'a, 'p, M: Multiplier> {
    plan: &'p Plan,
    mult: &'a M,
    keys: &'a KeyTable,
    asks: &'a [AskResult<'p>],
}

impl<'p, M: Multiplier> Gateway<'_, 'p, M> {
    // What becomes of an answer.
    #[tactic(auto, unfolding(crate::specs::Lines::given))]
    fn given(
        &self,
        permission: MayCheck,
        alloc: Global,
        job: AnswerJob,
    ) -> Result<AnswerResult<'p>, OutOfMemory>
        requires keys { HoldKeys self.now.plan.now self.now.keys.now.replies
            self.now.keys.now.slots }
        requires job { IsJobWithin (length self.now.plan.now.pool) job }
        ensures { IfOk result (λ g. g ≡ given_for self.now.plan.now self.now.keys.now.replies
            self.now.asks.now job) }
    {
        let pool = self.plan.pool.as_slice();
        let asks = first(self.asks, job.asks);
        let parts = AnswerParts {
            id: job.id,
            request: request_at(pool, asks, job.request),
            known: text_asked(asks, job.request),
            nonce: job.nonce.of(pool),
            text: job.text.of(pool),
        };
        match self.keys.key(job.key) {
            None => Ok(Err(CapsuleRefusal::NoKey)),
            Some(Key::Of761(pair)) => given_with(permission, alloc, self.mult, pair, &parts),
            Some(Key::Of857(pair)) => given_with(permission, alloc, self.mult, pair, &parts),
        }
    }

    // What becomes of the answer at this index, in its slot.
    fn fill_slot(
        &self,
        permission: MayCheck,
        alloc: Global,
        jobs: &[AnswerJob],
        i: usize,
        slot: &mut Result<AnswerResult<'p>, OutOfMemory>,
    )
        requires keys { HoldKeys self.now.plan.now self.now.keys.now.replies
            self.now.keys.now.slots }
        requires jobs { All (IsJobWithin (length self.now.plan.now.pool)) jobs.now }
        requires within { i < length jobs.now }
        ensures { (job : AnswerJob) → slice_get jobs.now i ≡ Some job
            → IfOk slot.new (λ g. g ≡ given_for self.now.plan.now self.now.keys.now.replies
            self.now.asks.now job) }
    {
        *slot = self.given(permission, alloc, jobs[i]);
    }

    // What becomes of these answers, on the calling thread.
    fn alone(
        &self,
        permission: MayCheck,
        alloc: Global,
        jobs: &[AnswerJob],
    ) -> Result<Vec<AnswerResult<'p>>, OutOfMemory>
        requires keys { HoldKeys self.now.plan.now self.now.keys.now.replies
            self.now.keys.now.slots }
        requires jobs { All (IsJobWithin (length self.now.plan.now.pool)) jobs.now }
        ensures { IfOk result (λ v. v.items ≡ map (given_for self.now.plan.now
            self.now.keys.now.replies self.now.asks.now) jobs.now) }
    {
        let mut answers = Vec::new(alloc);
        'jobs: for job in jobs {
            push_last(&mut answers, self.given(permission, alloc, *job)?)?;
        }
        Ok(answers)
    }
}

impl<'p, M: Multiplier + Sync> Gateway<'_, 'p, M> {
    // Each slot gets what becomes of its answer, by several threads.
    fn fill<R: Threads + Sync>(
        &self,
        rt: &R,
        alloc: Global,
        jobs: &[AnswerJob],
        slots: &mut [Result<AnswerResult<'p>, OutOfMemory>],
    )
        requires keys { HoldKeys self.now.plan.now self.now.keys.now.replies
            self.now.keys.now.slots }
        requires jobs { All (IsJobWithin (length self.now.plan.now.pool)) jobs.now }
        requires count { length slots.old ≡ length jobs.now }
        ensures { AreGiven (given_for self.now.plan.now self.now.keys.now.replies
            self.now.asks.now) jobs.now slots.new }
    {
        let permission = MayCheck::on_threads(rt);
        for_each_mut(
            rt,
            slots,
            MOST_THREADS,
            &|i: usize, slot: &mut Result<AnswerResult, OutOfMemory>|
                requires { HoldKeys self.now.plan.now self.now.keys.now.replies
                    self.now.keys.now.slots
                    × All (IsJobWithin (length self.now.plan.now.pool)) jobs.now
                    × (i < length jobs.now) }
            { self.fill_slot(permission, alloc, jobs, i, slot) },
        );
    }
}

// So many slots, with no answer yet.
fn empty_slots<'p>(
    alloc: Global,
    count: usize,
) -> Result<Vec<Result<AnswerResult<'p>, OutOfMemory>>, OutOfMemory>
    ensures { IfOk result (λ v. length v.items ≡ count) }
{
    let mut slots = Vec::new(alloc);
    'slots: for _slot in 0..count {
        push_last(&mut slots, Err(OutOfMemory))?;
    }
    Ok(slots)
}

// The answers, if there was memory for each.
fn filled<'p>(
    alloc: Global,
    slots: Vec<Result<AnswerResult<'p>, OutOfMemory>>,
) -> Result<Vec<AnswerResult<'p>>, OutOfMemory>
    ensures { IfOk result (λ v. map Ok v.items ≡ slots.entry.items) }
{
    let mut answers = Vec::new(alloc);
    'slots: for slot in slots {
        push_made(&mut answers, slot)?;
    }
    Ok(answers)
}

/// What becomes of the answers of a plan, in their order, by several threads. They are joined before
/// the call returns.
#[inline(never)]
pub(crate) fn all_answers<'p, R: Threads + Sync, M: Multiplier + Sync>(
    rt: &R,
    alloc: Global,
    plan: &'p CapsulePlan,
    mult: &M,
    keys: &KeyTable,
    asks: &[AskResult<'p>],
) -> Result<Vec<AnswerResult<'p>>, OutOfMemory>
    requires within { IsWithin plan.now }
    requires keys { HoldKeys plan.now.plan keys.now.replies keys.now.slots }
    ensures { IfOk result (λ v. v.items ≡ map
        (given_for plan.now.plan keys.now.replies asks.now) (jobs_from 0 plan.now.lines)) }
{
    let jobs = jobs(alloc, plan)?;
    let gateway = Gateway {
        plan: &plan.plan,
        mult,
        keys,
        asks,
    };
    let mut slots = empty_slots(alloc, jobs.len())?;
    gateway.fill(rt, alloc, &jobs, &mut slots);
    filled(alloc, slots)
}

/// What becomes of the answers of a plan, in their order, on the calling thread.
#[inline(never)]
pub(crate) fn all_answers_alone<'p, M: Multiplier>(
    permission: MayCheck,
    alloc: Global,
    plan: &'p CapsulePlan,
    mult: &M,
    keys: &KeyTable,
    asks: &[AskResult<'p>],
) -> Result<Vec<AnswerResult<'p>>, OutOfMemory>
    requires within { IsWithin plan.now }
    requires keys { HoldKeys plan.now.plan keys.now.replies keys.now.slots }
    ensures { IfOk result (λ v. v.items ≡ map
        (given_for plan.now.plan keys.now.replies asks.now) (jobs_from 0 plan.now.lines)) }
{
    let jobs = jobs(alloc, plan)?;
    let gateway = Gateway {
        plan: &plan.plan,
        mult,
        keys,
        asks,
    };
    gateway.alone(permission, alloc, &jobs)
}
