//! The quotas of the lanes.

ghost use Rattle.std.specs.Prelude.{ℕ, ◌≡◌, ◌+◌, ◌<◌, ◌^◌, All, List, IfOk, length, map, replicate, slice_index, sum_by};
ghost use Rattle.batch_plans.specs.declared.plan.ContextLine.{ContextLine};
ghost use Rattle.batch_plans.specs.declared.plan.Plan.{Plan};
ghost use Rattle.batch_plans.specs.Limits.{items_of};
ghost use Rattle.batch_plans.specs.Room.{items_on};
ghost use Rattle.context_books.specs.ContextLines.{AreOfLines, export_limits};
ghost use Rattle.context_books.specs.Quotas.{all_quotas, counts_of};

use crate::contexts::refusal_of;
use batch_plans::{CallLine, LaneLines, PlainList, Plan, context_of, items_of, kind_of};
use hpke_context::Context;
use std::alloc::{AllocError, Global};

// How many items a call asks of the context of this number.
fn items_on(contexts: &[Option<Context>], number: u32, call: &CallLine) -> u32
    ensures { (lines : List ContextLine) → AreOfLines lines contexts.now
        → result ≡ items_on lines (export_limits contexts.now) number call.now }
{
    if !kind_of(call).takes_numbers() || context_of(call) != number {
        return 0;
    }
    if refusal_of(contexts, call).is_some() {
        return 0;
    }
    items_of(call)
}

// Adds the items of a call to the count of the context that serves it.
fn count_call(contexts: &[Option<Context>], call: &CallLine, counts: &mut [u32])
    requires contexts { length counts.old ≡ length contexts.now }
    requires standing { (lines : List ContextLine) × AreOfLines lines contexts.now }
    requires room { (k : ℕ) → k < length counts.old
        → slice_index counts.old k + items_of call.now < 2 ^ 32 }
    ensures { (lines : List ContextLine) → AreOfLines lines contexts.now
        → (k : ℕ) → k < length counts.old → slice_index counts.new k
        ≡ slice_index counts.old k + items_on lines (export_limits contexts.now) k call.now }
{
    let number = context_of(call);
    let items = items_on(contexts, number, call);
    if items > 0 {
        counts[number as usize] += items;
    }
}

// Adds for each context the items that the calls of a lane ask of it.
fn count_lane(contexts: &[Option<Context>], calls: &[CallLine], counts: &mut [u32])
    requires contexts { length counts.old ≡ length contexts.now }
    requires standing { (lines : List ContextLine) × AreOfLines lines contexts.now }
    requires room { (k : ℕ) → k < length counts.old
        → slice_index counts.old k + sum_by items_of calls.now < 2 ^ 32 }
    ensures { (lines : List ContextLine) → AreOfLines lines contexts.now
        → (k : ℕ) → k < length counts.old → slice_index counts.new k ≡ slice_index counts.old k
        + sum_by (items_on lines (export_limits contexts.now) k) calls.now }
{
    'calls: for call in calls {
        count_call(contexts, call, counts);
    }
}

// So many counts of 0.
fn zeros(alloc: Global, count: usize) -> Result<Vec<u32>, AllocError>
    ensures { IfOk result (λ counts. counts.items ≡ replicate count 0) }
{
    vec![in alloc; 0u32; count]
}

// How many items the calls of a lane ask of each context.
fn counts_of(
    alloc: Global,
    contexts: &[Option<Context>],
    calls: &[CallLine],
) -> Result<PlainList<u32>, AllocError>
    requires few { sum_by items_of calls.now < 2 ^ 32 }
    requires standing { (lines : List ContextLine) × AreOfLines lines contexts.now }
    ensures { IfOk result (λ counts. (lines : List ContextLine) → AreOfLines lines contexts.now
        → counts ≡ counts_of lines contexts.now calls.now) }
{
    let mut counts = zeros(alloc, contexts.len())?;
    count_lane(contexts, calls, &mut counts);
    Ok(PlainList::from_vec(counts))
}

// The counts of each lane.
fn all_counts(
    alloc: Global,
    lanes: &LaneLines,
    contexts: &[Option<Context>],
) -> Result<Vec<PlainList<u32>>, AllocError>
    requires few { All (λ calls. sum_by items_of calls < 2 ^ 32) lanes.now }
    requires standing { (lines : List ContextLine) × AreOfLines lines contexts.now }
    ensures { IfOk result (λ rows. (lines : List ContextLine) → AreOfLines lines contexts.now
        → rows.items ≡ map (counts_of lines contexts.now) lanes.now) }
{
    let mut rows = Vec::new(alloc);
    'lanes: for calls in lanes.as_slice() {
        rows.push(counts_of(alloc, contexts, calls.as_slice())?)?;
    }
    Ok(rows)
}

// What all rows have at one place.
fn column(
    alloc: Global,
    rows: &[PlainList<u32>],
    number: usize,
) -> Result<PlainList<u32>, AllocError>
    requires { All (λ row. number < length row) rows.now }
    ensures { IfOk result (λ counts. counts ≡ map (λ row. slice_index row number) rows.now) }
{
    let mut counts = Vec::new(alloc);
    'rows: for row in rows {
        counts.push(row.as_slice()[number])?;
    }
    Ok(PlainList::from_vec(counts))
}

/// The quotas of some lanes on each context: how many entries each may add to its book.
///
/// The calls are gone through once, whatever the number of contexts.
pub fn all_quotas(
    alloc: Global,
    lanes: &LaneLines,
    contexts: &[Option<Context>],
) -> Result<Vec<PlainList<u32>>, AllocError>
    requires few { All (λ calls. sum_by items_of calls < 2 ^ 32) lanes.now }
    requires standing { (lines : List ContextLine) × AreOfLines lines contexts.now }
    ensures { IfOk result (λ all. (plan : Plan) → AreOfLines plan.contexts contexts.now
        → plan.lanes ≡ lanes.now → all.items ≡ all_quotas plan contexts.now) }
{
    let rows = all_counts(alloc, lanes, contexts)?;
    let mut all = Vec::with_capacity(alloc, contexts.len())?;
    'contexts: for number in 0..contexts.len() {
        all.push_reserved(column(alloc, &rows, number)?);
    }
    Ok(all)
}
