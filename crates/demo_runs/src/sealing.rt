//! The first batch: the ciphertexts in number order.

ghost use Rattle.std.specs.Prelude.{◌≡◌, ◌<◌, ◌≤◌, ℕ, List, length, IfOk, MatchOption, Some, None, slice_set};
ghost use Rattle.std.specs.List.{flat_map};
ghost use Rattle.hpke_context.specs.Contexts.{ContextView};
ghost use Rattle.batch_plans.specs.AnswersText.{reply_line};
ghost use Rattle.demo_runs.specs.Demo.{sealed_at};
ghost use Rattle.demo_runs.specs.Steps.{sealed_line, IsSealedReply, SealedLane, SealedLanes};
ghost use Rattle.demo_runs.specs.Steps.{AreLow, IsSealedLane, AreSealedLanes, put_all};
ghost use Rattle.demo_runs.specs.Batches.{IsSealed, is_generated, IsSealing, HasSealed};

use crate::batches::{DemoBatch, ServedBatch, begin};
use crate::ciphertext_bytes::{CIPHERTEXT_SIZE, see_bytes};
use crate::plans::sealing_batch;
use batch_plans::{Answers, CallLine, KeyReply, LaneAnswers, PlainList, Plan, Reply};
use std::alloc::{AllocError, Global};

/// Ciphertexts of 64 bytes of text, in number order.
pub type Ciphertexts = PlainList<[u8; CIPHERTEXT_SIZE]>;

/// The first batch, and room for its ciphertexts.
#[derive(Drop)]
pub struct Sealing {
    pub batch: DemoBatch,
    pub room: Ciphertexts,
}

// The one key was generated.
fn is_generated(keys: &[KeyReply]) -> bool
    ensures { result ≡ is_generated keys.now }
{
    match keys {
        [KeyReply::Generated { .. }] => true,
        _ => false,
    }
}

// A ciphertext goes to the place of its number.
fn put_reply(pool: &[u8], reply: &Reply, cts: &mut [[u8; CIPHERTEXT_SIZE]])
    requires sealed { IsSealedReply (length cts.old) pool.now reply.now }
    requires few { length cts.old ≤ 65536 }
    ensures len { length cts.new ≡ length cts.old }
    ensures put { (context : ContextView) (n : ℕ) → n < 65536
        → reply_line pool.now reply.now ≡ sealed_line context n
        → cts.new ≡ slice_set cts.old n (sealed_at context n) }
{
    if let Reply::Sealed { number, text } = *reply {
        let bytes = text.of(pool);
        see_bytes(bytes);
        cts[number as usize].copy_from_slice(bytes);
    }
}

// Those of a lane.
fn put_lane(calls: &[CallLine], lane: &LaneAnswers, cts: &mut [[u8; CIPHERTEXT_SIZE]])
    requires { IsSealedLane (length cts.old) calls.now lane.now }
    ensures len { length cts.new ≡ length cts.old }
    ensures put { (context : ContextView) (numbers : List ℕ)
        → SealedLane context calls.now lane.now numbers
        → AreLow (length cts.old) context numbers
        → cts.new ≡ put_all context cts.old numbers }
{
    let pool = lane.pool.as_slice();
    let replies = lane.replies.as_slice();
    'calls: for i in 0..calls.len() {
        put_reply(pool, &replies[i], cts);
    }
}

// Those of all lanes.
fn put_lanes(plan: &Plan, answers: &Answers, cts: &mut [[u8; CIPHERTEXT_SIZE]])
    requires { AreSealedLanes (length cts.old) plan.now.lanes answers.now.lanes }
    ensures len { length cts.new ≡ length cts.old }
    ensures put { (context : ContextView) (numbers : List (List ℕ))
        → SealedLanes context plan.now.lanes answers.now.lanes numbers
        → AreLow (length cts.old) context (flat_map (λ (ns : List ℕ). ns) numbers)
        → cts.new ≡ put_all context cts.old (flat_map (λ (ns : List ℕ). ns) numbers) }
{
    let lanes = plan.lanes.as_slice();
    let answered = answers.lanes.as_slice();
    'lanes: for lane in 0..lanes.len() {
        put_lane(lanes[lane].as_slice(), &answered[lane], cts);
    }
}

/// Sets the first batch up, which seals so many messages in so many lanes, all of them the bytes 00
/// to 3f; none where the seed gives no key.
///
/// All memory is taken that its lanes need to be answered.
pub fn begin_sealing(
    alloc: Global,
    seed: u64,
    messages: u32,
    lanes: u32,
) -> Result<Option<Sealing>, AllocError>
    requires messages { messages ≤ 65536 }
    requires lanes { (0 < lanes) × (lanes ≤ 16) }
    ensures { IfOk result (λ found.
        MatchOption found (IsSealed seed messages None) (IsSealing seed messages)) }
{
    let room = vec![in alloc; [0; CIPHERTEXT_SIZE]; messages as usize]?;
    let plan = sealing_batch(alloc, seed, messages, lanes)?;
    let batch = begin(alloc, plan)?;
    if is_generated(batch.answers.keys.as_slice()) {
        let room = PlainList::from_vec(room);
        Ok(Some(Sealing { batch, room }))
    } else {
        drop(batch);
        Ok(None)
    }
}

/// The ciphertexts of the first batch in number order, once its lanes were served. `room` is the room
/// that was made for them.
pub fn ciphertexts(served: ServedBatch, mut room: Ciphertexts) -> Ciphertexts
    requires { (seed messages : ℕ) × HasSealed seed messages served room }
    ensures count { length result ≡ length room }
    ensures sealed { (seed messages : ℕ) → HasSealed seed messages served room
        → IsSealed seed messages (Some result) }
{
    put_lanes(&served.plan, &served.answers, room.as_mut_slice());
    drop(served);
    room
}
