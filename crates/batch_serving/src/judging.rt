//! A result, judged: `check` and `check --live`.

ghost use Rattle.std.specs.Prelude.{◌≡◌, ◌≤◌, length, drop, true, false};
ghost use Rattle.batch_plans.specs.Limits.{most_input};
ghost use Rattle.batch_plans.specs.Within.{IsWithinLimits};
ghost use Rattle.request_frames.specs.Batch.{front_batch};
ghost use Rattle.batch_serving.specs.Effects.{Writes};
ghost use Rattle.request_frames.specs.Live.{front_live};
ghost use Rattle.batch_serving.specs.Text.{Judges, TellsVerdict};

use crate::multipliers::Named;
use crate::outcomes::Outcome;
use crate::telling::{tell_fault, tell_verdict};
use aes_gcm::MayCheck;
use batch_io::Sink;
use batch_words::Mult;
use journal_check::{check_live_result_by, check_result_by};
use request_frames::{Plan, read_front, read_live_front};
use std::alloc::Global;

// Judges a result of `run`, and tells the verdict.
fn judge_result<K: Sink>(
    permission: MayCheck,
    alloc: Global,
    plan: &Plan,
    result_text: &[u8],
    mult: Mult,
    sink: &mut K,
) -> Outcome
    requires within { IsWithinLimits plan.now }
    requires size { length result_text.now ≤ most_input }
    ensures { Writes K.written K.faults sink.old sink.new
        (TellsVerdict false plan.now result_text.now) result }
{
    match check_result_by(permission, alloc, &Named { name: mult }, plan, result_text) {
        Ok(verdict) => tell_verdict(verdict, sink),
        Err(_) => Outcome::OutOfMemory,
    }
}

// Judges a result of `live`, and tells the verdict.
fn judge_live_result<K: Sink>(
    permission: MayCheck,
    alloc: Global,
    plan: Plan,
    result_text: &[u8],
    mult: Mult,
    sink: &mut K,
) -> Outcome
    requires within { IsWithinLimits plan }
    requires size { length result_text.now ≤ most_input }
    ensures { Writes K.written K.faults sink.old sink.new
        (TellsVerdict true plan result_text.now) result }
{
    match check_live_result_by(permission, alloc, &Named { name: mult }, plan, result_text) {
        Ok(verdict) => tell_verdict(verdict, sink),
        Err(_) => Outcome::OutOfMemory,
    }
}

// What stands behind a batch that ends there.
fn behind(input: &[u8], end: usize) -> &[u8]
    requires { end ≤ length input.now }
    ensures { result.now ≡ drop end input.now }
{
    &input[end..]
}

/// Judges the result that stands behind a batch, or tells the batch's first bad line.
pub fn judge<K: Sink>(
    permission: MayCheck,
    alloc: Global,
    input: &[u8],
    mult: Mult,
    sink: &mut K,
) -> Outcome
    ensures { Writes K.written K.faults sink.old sink.new
        (Judges false (front_batch input.now) input.now) result }
{
    match read_front(alloc, input) {
        Ok((plan, end)) => {
            let outcome = judge_result(permission, alloc, &plan, behind(input, end), mult, sink);
            drop(plan);
            outcome
        }
        Err(fault) => tell_fault(&fault, sink),
    }
}

/// Judges the result that stands behind a batch whose lanes add and retire contexts, or tells the
/// batch's first bad line.
pub fn judge_live<K: Sink>(
    permission: MayCheck,
    alloc: Global,
    input: &[u8],
    mult: Mult,
    sink: &mut K,
) -> Outcome
    ensures { Writes K.written K.faults sink.old sink.new
        (Judges true (front_live input.now) input.now) result }
{
    match read_live_front(alloc, input) {
        Ok((plan, end)) => {
            judge_live_result(permission, alloc, plan, behind(input, end), mult, sink)
        }
        Err(fault) => tell_fault(&fault, sink),
    }
}
