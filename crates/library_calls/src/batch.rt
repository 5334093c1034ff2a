//! Whether a text is a batch, and whether a reply is one of a batch.

ghost use Rattle.std.specs.Prelude.{◌≡◌, ◌≢◌, ◌⊎◌, ◌≤◌, ◌<◌, ◌↔◌, length, take, drop, IsTrue, IfOk, OnErr, None, Some, Ok, false};
ghost use Rattle.field_text.specs.declared.faults.BadBatch.{BadBatch as BadBatch_};
ghost use Rattle.batch_plans.specs.Limits.{most_input};
ghost use Rattle.batch_plans.specs.Within.{IsWithinLimits};
ghost use Rattle.request_frames.specs.Batch.{BadAt};
ghost use Rattle.batch_plans.specs.ReplyText.{bad_text};
ghost use Rattle.context_table.specs.ReplyTo.{IsReply};
ghost use Rattle.library_calls.specs.Texts.{IsBatch, IsNoBatch, TellsBad, HasLongerLine, IsReplyTo, IsNoReplyTo};

use crate::outputs::put;
use crate::statuses::{BAD_BATCH, BROKEN, NO_MEMORY, NO_ROOM, WRONG_USAGE};
use aes_gcm::MayCheck;
use batch_io::MemorySink;
use batch_plans::limits::MOST_INPUT;
use journal_check::check_result_by;
use reply_frames::print_bad;
use request_frames::{BadBatch, Plan, Printed, ReadBatchFault, read_batch};
use result_lines::Verdict;
use ring_lanes::Lanes;
use std::alloc::{AllocError, Global};
use std::rt::Memory;

// The room for the line of a bad batch.
const MOST_LINE: usize = 64;

// Puts the line of a fault to the front of `out`, if there is room.
#[tactic(auto, using(crate::proofs::Judging::cut_short))]
fn put_bad(
    alloc: Global,
    bad: &BadBatch,
    out: &mut [u8],
    out_len: &mut usize,
) -> Result<bool, AllocError>
    ensures text { IfOk result (λ put. IsTrue put → take out_len.new out.new ≡ bad_text bad.now) }
    ensures size { IfOk result (λ put. IsTrue put → out_len.new ≤ length out.new) }
    ensures behind { drop out_len.new out.new ≡ drop out_len.new out.old }
    ensures kept { IfOk result (λ put. ¬ IsTrue put
        → (out.new ≡ out.old) × (out_len.new ≡ out_len.old)) }
    ensures lost { OnErr result ((out.new ≡ out.old) × (out_len.new ≡ out_len.old)) }
    ensures room { result ≡ Ok false → length out.old < length (bad_text bad.now) }
{
    let room = Vec::from_elem(alloc, 0u8, MOST_LINE)?;
    let mut sink = MemorySink::new(room, MOST_LINE, Vec::new(alloc));
    match print_bad(bad, &mut sink) {
        Printed::Whole => Ok(put(sink.bytes(), out, out_len)),
        Printed::Failed if sink.bytes().len() < out.len() => Err(AllocError),
        Printed::Failed => Ok(false),
    }
}

// The first bad line, or none where the text is a batch.
#[tactic(auto, using(crate::proofs::Judging::is_batch))]
fn first_bad(alloc: Global, input: &[u8]) -> Result<Option<BadBatch>, AllocError>
    ensures batch { IfOk result (λ found. found ≡ None → IsBatch input.now) }
    ensures bad { IfOk result (λ found. (bad : BadBatch_) → found ≡ Some bad
        → BadAt input.now bad.line bad.reason) }
{
    match read_batch(alloc, input) {
        Ok(_) => Ok(None),
        Err(ReadBatchFault::Bad(bad)) => Ok(Some(bad)),
        Err(ReadBatchFault::OutOfMemory) => Err(AllocError),
    }
}

/// Reads a batch of `run`. Status 0: it is one. 3: it isn't, and the line `bad LINE REASON` that
/// `run` writes for it stands at the front of `out`, and `out_len` is its size. 5: `out` has no room
/// for that line. 6: out of memory.
#[tactic(auto, using(crate::proofs::Judging::tells, crate::proofs::Judging::longer_line, crate::proofs::Judging::no_batch, crate::proofs::Judging::batch_has_no_bad_line,))]
pub fn read(alloc: Global, input: &[u8], out: &mut [u8], out_len: &mut usize) -> u32
    ensures batch { result ≢ 6 → ((result ≡ 0) ↔ IsBatch input.now) }
    ensures no_batch { result ≢ 6
        → (((result ≡ 3) ⊎ (result ≡ 5)) ↔ IsNoBatch input.now) }
    ensures bad { result ≡ 3 → TellsBad input.now (take out_len.new out.new) }
    ensures room { result ≢ 6 → ((result ≡ 5) ↔ HasLongerLine input.now (length out.old)) }
    ensures statuses { (result ≡ 0) ⊎ (result ≡ 3) ⊎ (result ≡ 5) ⊎ (result ≡ 6) }
    ensures size { result ≡ 3 → out_len.new ≤ length out.new }
    ensures behind { drop out_len.new out.new ≡ drop out_len.new out.old }
    ensures refused { result ≢ 3 → (out.new ≡ out.old) × (out_len.new ≡ out_len.old) }
{
    let Ok(found) = first_bad(alloc, input) else {
        return NO_MEMORY;
    };
    let Some(bad) = found else {
        return 0;
    };
    match put_bad(alloc, &bad, out, out_len) {
        Ok(true) => BAD_BATCH,
        Ok(false) => NO_ROOM,
        Err(_) => NO_MEMORY,
    }
}

// Whether a text is one that the plan may be answered with.
fn is_legal(alloc: Global, memory: Memory, plan: &Plan, reply: &[u8]) -> Result<bool, AllocError>
    requires within { IsWithinLimits plan.now }
    requires size { length reply.now ≤ most_input }
    ensures { IfOk result (λ legal. IsTrue legal ↔ IsReply plan.now reply.now) }
{
    let verdict = check_result_by(MayCheck::alone(memory), alloc, &Lanes, plan, reply)?;
    Ok(matches!(&verdict, Verdict::Legal))
}

/// Judges a reply to a batch. Status 0: `run` may give it for the batch. 7: it may not. 3: the batch
/// isn't one. 2: the reply has more than 67,108,864 bytes. 6: out of memory.
#[tactic(auto, using(crate::proofs::Judging::legal, crate::proofs::Judging::illegal))]
pub fn check(alloc: Global, memory: Memory, batch: &[u8], reply: &[u8]) -> u32
    ensures usage { (result ≡ 2) ↔ (most_input < length reply.now) }
    ensures legal { result ≢ 2 → result ≢ 6 → ((result ≡ 0) ↔ IsReplyTo batch.now reply.now) }
    ensures broken { result ≢ 2 → result ≢ 6 → ((result ≡ 7) ↔ IsNoReplyTo batch.now reply.now) }
    ensures bad { result ≢ 2 → result ≢ 6 → ((result ≡ 3) ↔ IsNoBatch batch.now) }
    ensures statuses { (result ≡ 0) ⊎ (result ≡ 2) ⊎ (result ≡ 3) ⊎ (result ≡ 6) ⊎ (result ≡ 7) }
{
    if reply.len() > MOST_INPUT {
        return WRONG_USAGE;
    }
    let plan = match read_batch(alloc, batch) {
        Ok(plan) => plan,
        Err(ReadBatchFault::Bad(_)) => return BAD_BATCH,
        Err(ReadBatchFault::OutOfMemory) => return NO_MEMORY,
    };
    match is_legal(alloc, memory, &plan, reply) {
        Ok(true) => 0,
        Ok(false) => BROKEN,
        Err(_) => NO_MEMORY,
    }
}
