//! Answer lines, taken out of the text.

ghost use Rattle.std.specs.Prelude.{◌≡◌, length, All, IfOk};
ghost use Rattle.capsule_frames.specs.Within.{IsWithin};
ghost use Rattle.capsule_frames.specs.Orders.{IsJobWithin, jobs_from};

use crate::lines::{CapsuleLine, CapsulePlan};
use batch_plans::EncField;
use call_places::Span;
use std::alloc::{AllocError as OutOfMemory, Global};

/// An answer line, with the number of asks that stand before it.
#[derive(Clone, Copy)]
pub(crate) struct AnswerJob {
    pub(crate) key: u32,
    pub(crate) id: u8,
    pub(crate) request: EncField,
    pub(crate) nonce: Span,
    pub(crate) text: Span,
    pub(crate) asks: usize,
}

/// The answers of a plan, in their order.
pub(crate) fn jobs(alloc: Global, plan: &CapsulePlan) -> Result<Vec<AnswerJob>, OutOfMemory>
    requires { IsWithin plan.now }
    ensures jobs { IfOk result (λ v. v.items ≡ jobs_from 0 plan.now.lines) }
    ensures within { IfOk result (λ v. All (IsJobWithin (length plan.now.plan.pool)) v.items) }
{
    let lines = plan.lines.as_slice();
    let mut jobs = Vec::new(alloc);
    let mut asks = 0;
    'lines: for line in lines {
        match *line {
            CapsuleLine::Ask { .. } => asks += 1,
            CapsuleLine::Answer {
                key,
                id,
                request,
                nonce,
                text,
            } => jobs.push(AnswerJob {
                key,
                id,
                request,
                nonce,
                text,
                asks,
            })?,
            CapsuleLine::Take { .. } => {}
        }
    }
    Ok(jobs)
}
