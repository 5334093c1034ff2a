//! The second batch: how many of the ciphertexts are opened.

ghost use Rattle.std.specs.Prelude.{◌≡◌, ◌<◌, ◌≤◌, ◌^◌, ℕ, List, length, IfOk, true};
ghost use Rattle.batch_plans.specs.Replies.{IsInRange};
ghost use Rattle.batch_plans.specs.AnswersText.{reply_line};
ghost use Rattle.demo_runs.specs.Batches.{IsOpening, HasOpened};
ghost use Rattle.demo_runs.specs.Steps.{opened_line, IsOpenedLane};

use crate::batches::{DemoBatch, ServedBatch, begin};
use crate::plans::opening_batch;
use crate::sealing::Ciphertexts;
use batch_plans::{LaneAnswers, Reply};
use context_table::laws::ends_match;
use std::alloc::{AllocError, Global};

// T: the bytes 00 to 3f.
const SEALED_TEXT: [u8; 64] = [
    0, 1, 2, 3, 4, 5, 6, 7, 8, 9, 10, 11, 12, 13, 14, 15, 16, 17, 18, 19, 20, 21, 22, 23, 24, 25,
    26, 27, 28, 29, 30, 31, 32, 33, 34, 35, 36, 37, 38, 39, 40, 41, 42, 43, 44, 45, 46, 47, 48, 49,
    50, 51, 52, 53, 54, 55, 56, 57, 58, 59, 60, 61, 62, 63,
];

// What the type of a number says.
fn see_number(number: u64)
    ensures { number < 2 ^ 64 }
{}

// The reply is T, opened.
fn is_opened(pool: &[u8], reply: &Reply) -> bool
    requires { IsInRange (length pool.now) reply.now }
    ensures { (n : ℕ) → n < 65536 → reply_line pool.now reply.now ≡ opened_line n → result ≡ true }
{
    match *reply {
        Reply::Opened { number, text } => {
            see_number(number);
            text.of(pool) == SEALED_TEXT.as_slice()
        }
        _ => false,
    }
}

// How many of the first replies of a lane are T, opened.
fn count_opened(lane: &LaneAnswers, messages: u32) -> u32
    requires { IsOpenedLane messages lane.now }
    ensures { result ≡ messages }
{
    let pool = lane.pool.as_slice();
    let replies = lane.replies.as_slice();
    let mut opened = 0;
    'replies: for i in 0..messages as usize {
        if is_opened(pool, &replies[i]) {
            opened += 1;
        }
    }
    opened
}

/// Sets the second batch up, which opens the ciphertexts that the first one gave.
///
/// All memory is taken that its lane needs to be answered.
pub fn begin_opening(alloc: Global, seed: u64, cts: &Ciphertexts) -> Result<DemoBatch, AllocError>
    requires { length cts.now ≤ 65536 }
    ensures { IfOk result (IsOpening seed cts.now) }
{
    let plan = opening_batch(alloc, seed, cts.as_slice())?;
    begin(alloc, plan)
}

/// How many of the messages were opened.
pub(crate) fn opened_messages(messages: u32, served: ServedBatch) -> u32
    requires { (seed : ℕ) × (cts : List (List ℕ)) × HasOpened seed messages cts served }
    ensures { result ≡ messages }
{
    ends_match();
    let opened = count_opened(&served.answers.lanes.as_slice()[0], messages);
    drop(served);
    opened
}
