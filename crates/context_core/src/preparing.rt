//! What a rehearsal needs beside the answers, all of it taken before the first step.

ghost use Rattle.std.specs.Prelude.{◌≡◌, ◌≤◌, [], All, IfOk, List, length, map, sum, sum_by};
ghost use Rattle.std.specs.List.{range_with_len};
ghost use Rattle.batch_plans.specs.Limits.{items_of};
ghost use Rattle.batch_plans.specs.Within.{IsWithinLimits};
ghost use Rattle.batch_plans.specs.declared.plan.ContextLine.{ContextLine};
ghost use Rattle.batch_plans.specs.declared.plan.Plan.{Plan};
ghost use Rattle.context_books.specs.ContextLines.{AreOfLines};
ghost use Rattle.context_books.specs.Quotas.{quotas_on};
ghost use Rattle.context_core.specs.Following.{opened_count};
ghost use Rattle.context_core.specs.Preparing.{fresh_at, IsFresh, AreFresh};

use crate::lanes::{Lane, Stage};
use batch_plans::{CallLine, LaneAnswers, LaneProgress, PlainList, Plan, items_of};
use call_places::Step;
use context_books::{Book, all_quotas, standing};
use hpke_context::Context;
use speculative_open::GuessTable;
use std::alloc::{AllocError, Global};

// The book of the context of this number, if it stands, by the quotas of all lanes on it.
fn book(
    alloc: Global,
    contexts: &[Option<Context>],
    number: u32,
    quotas: &[u32],
) -> Result<Option<Book>, AllocError>
    requires sum { sum quotas.now ≤ 65536 }
    requires standing { (lines : List ContextLine) × AreOfLines lines contexts.now }
    ensures { (plan : Plan) → quotas.now ≡ quotas_on plan contexts.now number
        → IfOk result (λ book. book ≡ fresh_at plan contexts.now number) }
{
    let Some(context) = standing(contexts, number) else {
        return Ok(None);
    };
    Ok(Some(Book::new(alloc, context.limit(), quotas)?))
}

/// A book for each context that stands.
pub(crate) fn books(
    alloc: Global,
    plan: &Plan,
    contexts: &[Option<Context>],
) -> Result<Vec<Option<Book>>, AllocError>
    requires within { IsWithinLimits plan.now }
    requires standing { AreOfLines plan.now.contexts contexts.now }
    ensures { IfOk result (λ books. books.items
        ≡ map (fresh_at plan.now contexts.now) (range_with_len 0 (length contexts.now))) }
{
    let all = all_quotas(alloc, &plan.lanes, contexts)?;
    let mut books = Vec::with_capacity(alloc, contexts.len())?;
    'contexts: for number in 0..contexts.len() {
        let quotas = all[number].as_slice();
        books.push_reserved(book(alloc, contexts, number as u32, quotas)?);
    }
    Ok(books)
}

// How many items an opening names; another call has none.
fn count_opened(call: &CallLine) -> u32
    ensures { result ≡ opened_count call.now }
{
    match *call {
        CallLine::Unseal { .. } => 1,
        CallLine::UnsealAll { count, .. } => count,
        CallLine::Seal { .. }
        | CallLine::Export { .. }
        | CallLine::Add { .. }
        | CallLine::Retire { .. } => 0,
    }
}

// The items of all openings of a lane.
fn all_opened(calls: &[CallLine]) -> usize
    requires { sum_by opened_count calls.now ≤ 65536 }
    ensures { result ≡ sum_by opened_count calls.now }
{
    let mut all = 0;
    'calls: for call in calls {
        all += count_opened(call) as usize;
    }
    all
}

// The most items of one call.
fn most_items(calls: &[CallLine]) -> usize
    ensures { All (λ call. items_of call ≤ result) calls.now }
{
    let mut most = 0;
    'calls: for call in calls {
        most = most.max(items_of(call) as usize);
    }
    most
}

/// Answers with no room.
pub(crate) fn no_answers(alloc: Global) -> LaneAnswers
    ensures pool { result.pool ≡ [] }
    ensures replies { result.replies ≡ [] }
    ensures batches { result.batches ≡ [] }
{
    LaneAnswers {
        pool: PlainList::from_vec(Vec::new(alloc)),
        replies: PlainList::from_vec(Vec::new(alloc)),
        batches: PlainList::from_vec(Vec::new(alloc)),
    }
}

// A lane before its first step, which has no answers yet.
fn lane(alloc: Global, calls: &[CallLine]) -> Result<Lane, AllocError>
    requires { sum_by opened_count calls.now ≤ 65536 }
    ensures { IfOk result (λ lane. IsFresh calls.now lane) }
{
    let done = vec![in alloc; Stage::Fresh; calls.len()]?;
    let table = GuessTable::with_room(alloc, most_items(calls))?;
    let steps = vec![in alloc; Step::Failed; all_opened(calls)]?;
    Ok(Lane {
        call: 0,
        stage: Stage::Fresh,
        done,
        table,
        steps,
        settled: 0,
        progress: LaneProgress::new(no_answers(alloc)),
    })
}

/// The lanes of a plan before their first steps. They have no answers yet.
pub(crate) fn lanes(alloc: Global, plan: &Plan) -> Result<Vec<Lane>, AllocError>
    requires { IsWithinLimits plan.now }
    ensures count { IfOk result (λ lanes. length lanes.items ≡ length plan.now.lanes) }
    ensures fresh { IfOk result (λ lanes. AreFresh plan.now.lanes lanes.items) }
{
    let all = plan.lanes.as_slice();
    let mut lanes = Vec::with_capacity(alloc, all.len())?;
    'lanes: for calls in all {
        lanes.push_reserved(lane(alloc, calls.as_slice())?);
    }
    Ok(lanes)
}
