//! Room for the journals of a plan.

ghost use Rattle.std.specs.Prelude.{◌≡◌, ◌+◌, ◌<◌, ◌^◌, ℕ, length, map, replicate, sum_by};
ghost use Rattle.std.specs.Prelude.{slice_index, IfOk};
ghost use Rattle.std.specs.List.{range_with_len};
ghost use Rattle.batch_plans.specs.Limits.{items_of, all_items};
ghost use Rattle.batch_plans.specs.Room.{items_on, all_items_on, blank_mark, journal_room};

use crate::calls::{items_of, served_on};
use crate::plan::{CallLine, ContextLine, LaneLines};
use crate::replies::JournalList;
use byte_strings::PlainList;
use call_places::{Mark, Place};
use std::alloc::{AllocError, Global};

const BLANK_MARK: Mark = Mark {
    place: Place {
        lane: 0,
        call: 0,
        item: 0,
    },
    stamp: 0,
};

// Adds the items of a call to the count of the context that serves it.
fn count_call(contexts: &[ContextLine], export_limits: &[u32], call: &CallLine, counts: &mut [u32])
    requires contexts { length counts.old ≡ length contexts.now }
    requires room { (k : ℕ) → k < length counts.old
        → slice_index counts.old k + items_of call.now < 2 ^ 32 }
    ensures { (k : ℕ) → k < length counts.old → slice_index counts.new k
        ≡ slice_index counts.old k + items_on contexts.now export_limits.now k call.now }
{
    if let Some(context) = served_on(contexts, export_limits, call) {
        counts[context as usize] += items_of(call);
    }
}

// Adds for each context the items that it serves of a lane.
fn count_lane(
    contexts: &[ContextLine],
    export_limits: &[u32],
    calls: &[CallLine],
    counts: &mut [u32],
)
    requires contexts { length counts.old ≡ length contexts.now }
    requires room { (k : ℕ) → k < length counts.old
        → slice_index counts.old k + sum_by items_of calls.now < 2 ^ 32 }
    ensures { (k : ℕ) → k < length counts.old → slice_index counts.new k
        ≡ slice_index counts.old k + sum_by (items_on contexts.now export_limits.now k) calls.now }
{
    'calls: for call in calls {
        count_call(contexts, export_limits, call, counts);
    }
}

// How many items each context serves.
fn counts_of(
    alloc: Global,
    contexts: &[ContextLine],
    export_limits: &[u32],
    lanes: &LaneLines,
) -> Result<Vec<u32>, AllocError>
    requires { all_items lanes.now < 2 ^ 32 }
    ensures { IfOk result (λ counts. counts.items
        ≡ map (λ k. all_items_on contexts.now export_limits.now k lanes.now)
        (range_with_len 0 (length contexts.now))) }
{
    let mut counts = vec![in alloc; 0u32; contexts.len()]?;
    'lanes: for calls in lanes.as_slice() {
        count_lane(contexts, export_limits, calls.as_slice(), &mut counts);
    }
    Ok(counts)
}

fn journal(alloc: Global, count: u32) -> Result<PlainList<Mark>, AllocError>
    ensures { IfOk result (λ journal. journal ≡ replicate count blank_mark) }
{
    let marks = vec![in alloc; BLANK_MARK; count as usize]?;
    Ok(PlainList::from_vec(marks))
}

/// The journals before the lanes are served. The calls are gone through once.
pub(crate) fn journals_room(
    alloc: Global,
    contexts: &[ContextLine],
    export_limits: &[u32],
    lanes: &LaneLines,
) -> Result<JournalList, AllocError>
    requires { all_items lanes.now < 2 ^ 32 }
    ensures { IfOk result (λ journals. journals
        ≡ map (journal_room contexts.now export_limits.now lanes.now)
        (range_with_len 0 (length contexts.now))) }
{
    let counts = counts_of(alloc, contexts, export_limits, lanes)?;
    let mut journals = Vec::new(alloc);
    'counts: for count in &counts {
        journals.push(journal(alloc, *count)?)?;
    }
    Ok(PlainList::from_vec(journals))
}
