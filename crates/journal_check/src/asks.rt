//! What the calls of a plan ask of its contexts.

ghost use Rattle.std.specs.Prelude.{◌≡◌, ◌++◌, map, IfOk, MatchOption, Some, None, [], slice_get};
ghost use Rattle.std.specs.Prelude.{slice_index_or};
ghost use Rattle.batch_plans.specs.Within.{IsWithinLimits};
ghost use Rattle.context_books.specs.Asks.{batch_of};
ghost use Rattle.journal_check.specs.Asks.{asked_in, size_in, sizes_of, AreFew, goes_on_by};

use batch_plans::{CallLine, PlainList, Plan};
use call_places::Place;
use context_books::refusal_of;
use hpke_context::Context;
use std::alloc::{AllocError, Global};

/// The context that a call asks, and for how many items; none where it asks nothing.
pub(crate) fn asked_of(contexts: &[Option<Context>], call: &CallLine) -> Option<(u32, u32)>
    ensures { result ≡ asked_in contexts.now call.now }
{
    if refusal_of(contexts, call).is_some() {
        return None;
    }
    match *call {
        CallLine::Seal { context, .. } | CallLine::Unseal { context, .. } => Some((context, 1)),
        CallLine::UnsealAll { context, count, .. } => Some((context, count)),
        CallLine::Export { .. } | CallLine::Add { .. } | CallLine::Retire { .. } => None,
    }
}

/// What a call asks, without the bytes: so many items of a context.
#[derive(Clone, Copy, Debug, PartialEq, Eq)]
pub(crate) struct Asked {
    pub(crate) context: u32,
    pub(crate) count: u32,
}

/// The same of a call that may ask nothing: no items, and then the context says nothing.
pub(crate) fn size_of(contexts: &[Option<Context>], call: &CallLine) -> Asked
    ensures { result ≡ size_in contexts.now call.now }
{
    match asked_of(contexts, call) {
        Some((context, count)) => Asked { context, count },
        None => Asked {
            context: 0,
            count: 0,
        },
    }
}

// What the calls of a lane ask.
fn sizes_in(
    alloc: Global,
    contexts: &[Option<Context>],
    calls: &[CallLine],
) -> Result<PlainList<Asked>, AllocError>
    ensures { IfOk result (λ sizes. sizes ≡ map (size_in contexts.now) calls.now) }
{
    let mut sizes = Vec::new(alloc);
    'calls: for call in calls {
        sizes.push(size_of(contexts, call))?;
    }
    Ok(PlainList::from_vec(sizes))
}

// What the calls of all lanes ask.
fn all_sizes(
    alloc: Global,
    contexts: &[Option<Context>],
    lanes: &[PlainList<CallLine>],
) -> Result<Vec<PlainList<Asked>>, AllocError>
    ensures { IfOk result (λ asks. asks.items ≡ map (map (size_in contexts.now)) lanes.now) }
{
    let mut asks = Vec::new(alloc);
    'lanes: for calls in lanes {
        asks.push(sizes_in(alloc, contexts, calls.as_slice())?)?;
    }
    Ok(asks)
}

/// What the calls of all lanes ask.
pub(crate) fn asks_of(
    alloc: Global,
    plan: &Plan,
    contexts: &[Option<Context>],
) -> Result<Vec<PlainList<Asked>>, AllocError>
    requires { IsWithinLimits plan.now }
    ensures sizes { IfOk result (λ asks.
        asks.items ≡ sizes_of (batch_of plan.now contexts.now)) }
    ensures few { IfOk result (λ asks. AreFew asks.items) }
{
    all_sizes(alloc, contexts, plan.lanes.as_slice())
}

// What the call of a place asks, where there is one.
fn asked_at(asks: &[PlainList<Asked>], place: Place) -> Option<Asked>
    ensures { result ≡ slice_get (slice_index_or asks.now place.lane []) place.call }
{
    let calls = asks.get(place.lane as usize)?;
    calls.as_slice().get(place.call as usize).copied()
}

/// Whether an opening goes on behind the item of this place.
pub(crate) fn goes_on(asks: &[PlainList<Asked>], place: Place) -> bool
    ensures { result ≡ goes_on_by asks.now place }
{
    match asked_at(asks, place) {
        Some(asked) => (place.item as u64) + 1 < (asked.count as u64),
        None => false,
    }
}
