//! The replies in the order of the text.

ghost use Rattle.std.specs.Prelude.{◌≡◌, List, ◌∷◌, IfOk};
ghost use Rattle.std.specs.Vec.Iter.{into_iter_items};
ghost use Rattle.capsule_frames.specs.declared.lines.CapsuleLine.{CapsuleLine};
ghost use Rattle.capsule_frames.specs.Replies.{asked_reply, answered_reply, took_reply};
ghost use Rattle.capsule_frames.specs.Orders.{merged, followed};

use crate::lines::CapsuleLine;
use crate::replies::CapsuleReply;
use crate::results::{AnswerResult, AskResult, TakeResult, push_last};
use std::alloc::{AllocError as OutOfMemory, Global};
use std::vec::IntoIter;

fn asked_reply<'p>(now: AskResult<'p>) -> CapsuleReply<'p>
    ensures { result ≡ asked_reply now.entry }
{
    match now {
        Ok(sent) => CapsuleReply::Asked {
            request: sent.into_request(),
        },
        Err(refusal) => CapsuleReply::Refused(refusal),
    }
}

fn answered_reply<'p>(now: AnswerResult<'p>) -> CapsuleReply<'p>
    ensures { result ≡ answered_reply now.entry }
{
    match now {
        Ok(given) => {
            let (text, response) = given.into_parts();
            CapsuleReply::Answered { text, response }
        }
        Err(refusal) => CapsuleReply::Refused(refusal),
    }
}

fn took_reply<'p>(now: TakeResult<'p>) -> CapsuleReply<'p>
    ensures { result ≡ took_reply now.entry }
{
    match now {
        Ok(text) => CapsuleReply::Took { text },
        Err(refusal) => CapsuleReply::Refused(refusal),
    }
}

// The reply to a line: the next result of its kind, where one is left.
fn next_reply<'p>(
    line: &CapsuleLine,
    asks: &mut IntoIter<AskResult<'p>>,
    answers: &mut IntoIter<AnswerResult<'p>>,
    takes: &mut IntoIter<TakeResult<'p>>,
) -> Option<CapsuleReply<'p>>
    ensures { (lines : List CapsuleLine) → merged (line.now ∷ lines) (into_iter_items asks.old)
        (into_iter_items answers.old) (into_iter_items takes.old)
        ≡ followed result (merged lines (into_iter_items asks.new) (into_iter_items answers.new)
        (into_iter_items takes.new)) }
{
    Some(match line {
        CapsuleLine::Ask { .. } => asked_reply(asks.next()?),
        CapsuleLine::Answer { .. } => answered_reply(answers.next()?),
        CapsuleLine::Take { .. } => took_reply(takes.next()?),
    })
}

/// The replies to these lines, each the next of its kind, as far as there are results.
pub(crate) fn merged<'p>(
    alloc: Global,
    lines: &[CapsuleLine],
    asks: Vec<AskResult<'p>>,
    answers: Vec<AnswerResult<'p>>,
    takes: Vec<TakeResult<'p>>,
) -> Result<Vec<CapsuleReply<'p>>, OutOfMemory>
    ensures { IfOk result (λ v. v.items
        ≡ merged lines.now asks.entry.items answers.entry.items takes.entry.items) }
{
    let mut asks_left = asks.into_iter();
    let mut answers_left = answers.into_iter();
    let mut takes_left = takes.into_iter();
    let mut replies = Vec::new(alloc);
    'lines: for line in lines {
        match next_reply(line, &mut asks_left, &mut answers_left, &mut takes_left) {
            Some(reply) => push_last(&mut replies, reply)?,
            None => return Ok(replies),
        }
    }
    Ok(replies)
}
