//! The plans that the texts spell.

ghost use Rattle.std.specs.Prelude.{◌≡◌, ◌<◌, ◌≤◌, length, IfOk};
ghost use Rattle.batch_plans.specs.Within.{IsWithinLimits, IsPlain};
ghost use Rattle.request_frames.specs.Batch.{Spells};
ghost use Rattle.demo_runs.specs.Texts.{sealing_text, opening_text};
ghost use Rattle.demo_runs.specs.Plans.{IsSealingPlan, IsOpeningPlan};

use crate::ciphertext_bytes::{CIPHERTEXT_SIZE, see_ciphertexts};
use crate::texts::{opening_text, sealing_text};
use batch_plans::Plan;
use field_text::ReadBatchFault;
use request_frames::read_batch;
use std::alloc::{AllocError, Global};

/// The plan of the batch that seals so many messages in so many lanes, read from its text.
pub fn sealing_batch(
    alloc: Global,
    seed: u64,
    messages: u32,
    lanes: u32,
) -> Result<Plan, AllocError>
    requires messages { messages ≤ 65536 }
    requires lanes { (0 < lanes) × (lanes ≤ 16) }
    ensures spelled { IfOk result (Spells (sealing_text seed messages lanes)) }
    ensures plan { IfOk result (IsSealingPlan seed messages lanes) }
    ensures limits { IfOk result IsWithinLimits }
    ensures plain { IfOk result IsPlain }
{
    let text = sealing_text(alloc, seed, messages, lanes)?;
    match read_batch(alloc, text.as_bytes()) {
        Ok(plan) => Ok(plan),
        Err(ReadBatchFault::OutOfMemory) => Err(AllocError),
        Err(ReadBatchFault::Bad(_)) => unreachable!(),
    }
}

/// The plan of the batch that opens these ciphertexts, read from its text.
pub fn opening_batch(
    alloc: Global,
    seed: u64,
    cts: &[[u8; CIPHERTEXT_SIZE]],
) -> Result<Plan, AllocError>
    requires { length cts.now ≤ 65536 }
    ensures spelled { IfOk result (Spells (opening_text seed cts.now)) }
    ensures plan { IfOk result (IsOpeningPlan seed cts.now) }
    ensures limits { IfOk result IsWithinLimits }
    ensures plain { IfOk result IsPlain }
{
    see_ciphertexts(cts);
    let text = opening_text(alloc, seed, cts)?;
    match read_batch(alloc, text.as_bytes()) {
        Ok(plan) => Ok(plan),
        Err(ReadBatchFault::OutOfMemory) => Err(AllocError),
        Err(ReadBatchFault::Bad(_)) => unreachable!(),
    }
}
