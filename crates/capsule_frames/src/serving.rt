//! A plan of capsules, served whole.

ghost use Rattle.std.specs.Prelude.{◌≡◌, IfOk, map};
ghost use Rattle.capsule_frames.specs.Within.{IsWithin};
ghost use Rattle.context_table.specs.SetUp.{IsKeySetUp};
ghost use Rattle.capsule_frames.specs.Orders.{asks_from, given_for, jobs_from};
ghost use Rattle.capsule_frames.specs.Replies.{AreReplies};

use crate::answers::{all_answers, all_answers_alone};
use crate::asks::all_asks;
use crate::lines::CapsulePlan;
use crate::merging::merged;
use crate::replies::CapsuleReply;
use crate::results::{AnswerResult, AskResult};
use crate::takes::all_takes;
use aes_gcm::MayCheck;
use batch_plans::{KeyReplies, PlainList};
use context_table::key_table;
use ring_core::Multiplier;
use std::alloc::{AllocError as OutOfMemory, Global};
use std::thread::Threads;

/// The replies to capsule lines, in the order of the text.
pub type CapsuleReplies<'p> = PlainList<CapsuleReply<'p>>;

/// The replies to the key lines and to the capsule lines of a plan, which holds the texts that are
/// its own.
#[derive(Drop)]
pub struct CapsuleAnswers<'p> {
    pub keys: KeyReplies,
    pub replies: CapsuleReplies<'p>,
}

/// Serves a plan of capsules (RFC 9458, 4): all asks, then all answers by 16 threads at most, then
/// all takes.
///
/// The replies are those of one client and one gateway that do the lines in the order of the text,
/// with each multiplier and however the threads run. Key number k draws its words from stream 2k of
/// the plan's seed, ask number a from stream 2a + 1; refused lines are counted too. A line is refused
/// by the first of the causes in the order of [`CapsuleRefusal`](crate::CapsuleRefusal). The
/// threads are joined before the call returns.
pub fn serve_capsules<'p, R: Threads + Sync, M: Multiplier + Sync>(
    rt: &R,
    alloc: Global,
    plan: &'p CapsulePlan,
    mult: &M,
) -> Result<CapsuleAnswers<'p>, OutOfMemory>
    requires { IsWithin plan.now }
    ensures { IfOk result (λ a. AreReplies plan.now a.keys a.replies) }
{
    let keys = key_table(alloc, &plan.plan, mult)?;
    let asks = all_asks(alloc, plan, mult, &keys)?;
    let answers = all_answers(rt, alloc, plan, mult, &keys, &asks);
    let permission = MayCheck::on_threads(rt);
    served(permission, alloc, plan, keys.replies, asks, answers)
}

/// Serves a plan of capsules as [`serve_capsules`] does, on the calling thread, for who may check tags.
pub fn serve_capsules_alone<'p, M: Multiplier>(
    permission: MayCheck,
    alloc: Global,
    plan: &'p CapsulePlan,
    mult: &M,
) -> Result<CapsuleAnswers<'p>, OutOfMemory>
    requires { IsWithin plan.now }
    ensures { IfOk result (λ a. AreReplies plan.now a.keys a.replies) }
{
    let keys = key_table(alloc, &plan.plan, mult)?;
    let asks = all_asks(alloc, plan, mult, &keys)?;
    let answers = all_answers_alone(permission, alloc, plan, mult, &keys, &asks);
    served(permission, alloc, plan, keys.replies, asks, answers)
}

// The replies to a plan, by its keys, its asks and its answers, where there was memory for these.
fn served<'p>(
    permission: MayCheck,
    alloc: Global,
    plan: &'p CapsulePlan,
    keys: KeyReplies,
    asks: Vec<AskResult<'p>>,
    answers: Result<Vec<AnswerResult<'p>>, OutOfMemory>,
) -> Result<CapsuleAnswers<'p>, OutOfMemory>
    requires within { IsWithin plan.now }
    requires set_up { IsKeySetUp plan.now.plan keys }
    requires asks { asks.items ≡ asks_from plan.now.plan keys 0 plan.now.lines }
    requires answers { IfOk answers (λ v. v.items
        ≡ map (given_for plan.now.plan keys asks.items) (jobs_from 0 plan.now.lines)) }
    ensures { IfOk result (λ a. AreReplies plan.now a.keys a.replies) }
{
    let answers = answers?;
    let takes = all_takes(permission, alloc, plan, &asks, &answers)?;
    let replies = merged(alloc, plan.lines.as_slice(), asks, answers, takes)?;
    Ok(CapsuleAnswers {
        keys,
        replies: PlainList::from_vec(replies),
    })
}
