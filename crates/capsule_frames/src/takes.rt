//! The takes of a plan.

ghost use Rattle.std.specs.Prelude.{◌≡◌, ◌≤◌, length, IfOk, IfSome, option_copied};
ghost use Rattle.capsule_frames.specs.Forms.{most_response};
ghost use Rattle.capsule_frames.specs.Within.{IsMessageWithin, IsWithin};
ghost use Rattle.capsule_frames.specs.Lines.{response_at, took};
ghost use Rattle.capsule_frames.specs.Orders.{takes_from};

use crate::finding::{first, left_by, refused};
use crate::known::KnownText;
use crate::lines::{CapsuleLine, CapsulePlan};
use crate::replies::CapsuleRefusal;
use crate::results::{AnswerResult, AskResult, TakeResult, push_made};
use aes_gcm::MayCheck;
use batch_plans::{EncField, Plan};
use ohttp_capsule::take_by;
use std::alloc::{AllocError as OutOfMemory, Global};

// The response of a take: bytes of its line, or what an earlier answer gave.
fn response_at<'a>(
    pool: &'a [u8],
    answers: &'a [AnswerResult],
    response: EncField,
) -> Option<&'a [u8]>
    requires { IsMessageWithin most_response (length pool.now) response }
    ensures response { option_copied result ≡ response_at pool.now answers.now response }
    ensures size { IfSome result (λ r. length r.now ≤ most_response) }
{
    match response {
        EncField::Bytes(bytes) => Some(bytes.of(pool)),
        EncField::Of(number) => Some(left_by(answers, number)?.response()),
    }
}

// The text that a response has where it is that of an answer, to the ask of the take: the answer's.
fn text_said<'p>(answers: &[AnswerResult<'p>], response: EncField) -> &'p [u8] {
    let EncField::Of(number) = response else {
        return &[];
    };
    match left_by(answers, number) {
        Some(given) => given.said(),
        None => &[],
    }
}

// What a take may name: the text, and what the asks and the answers before it left.
#[derive(Drop)]
struct Before<'a, 'p> {
    plan: &'a Plan,
    asks: &'a [AskResult<'p>],
    answers: &'a [AnswerResult<'p>],
}

impl<'p> Before<'_, 'p> {
    // What becomes of a take.
    #[tactic(auto, unfolding(crate::specs::Lines::took))]
    fn took(
        &self,
        permission: MayCheck,
        alloc: Global,
        ask: u32,
        response: EncField,
    ) -> Result<TakeResult<'p>, OutOfMemory>
        requires { IsMessageWithin most_response (length self.now.plan.now.pool) response }
        ensures { IfOk result (λ t. t
            ≡ took self.now.plan.now self.now.asks.now self.now.answers.now ask response) }
    {
        let Some(sent) = left_by(self.asks, ask) else {
            return Ok(Err(CapsuleRefusal::NoAsk));
        };
        let known = text_said(self.answers, response);
        let pool = self.plan.pool.as_slice();
        let Some(response) = response_at(pool, self.answers, response) else {
            return Ok(Err(CapsuleRefusal::NoAnswer));
        };
        match take_by(permission, alloc, sent.asked(), response) {
            Ok(text) => Ok(Ok(KnownText::held_in(known, text))),
            Err(fault) => refused(fault),
        }
    }
}

/// What becomes of the takes of a plan, in their order.
#[inline(never)]
pub(crate) fn all_takes<'p>(
    permission: MayCheck,
    alloc: Global,
    plan: &CapsulePlan,
    asks: &[AskResult<'p>],
    answers: &[AnswerResult<'p>],
) -> Result<Vec<TakeResult<'p>>, OutOfMemory>
    requires { IsWithin plan.now }
    ensures { IfOk result (λ v. v.items
        ≡ takes_from plan.now.plan asks.now answers.now 0 0 plan.now.lines) }
{
    let lines = plan.lines.as_slice();
    let mut takes = Vec::new(alloc);
    let mut asks_before = 0;
    let mut answers_before = 0;
    'lines: for line in lines {
        match *line {
            CapsuleLine::Ask { .. } => asks_before += 1,
            CapsuleLine::Answer { .. } => answers_before += 1,
            CapsuleLine::Take { ask, response } => {
                let before = Before {
                    plan: &plan.plan,
                    asks: first(asks, asks_before),
                    answers: first(answers, answers_before),
                };
                push_made(&mut takes, before.took(permission, alloc, ask, response))?
            }
        }
    }
    Ok(takes)
}
