//! The calls of a plan as they were served, by the notes of its table.

ghost use Rattle.std.specs.Prelude.{◌≡◌, ◌<◌, ℕ, ◌==◌, ◌||◌, ◌&&◌, nat_lt, false, length};
ghost use Rattle.std.specs.Prelude.{if◌then◌else◌, slice_index_or, IfOk};
ghost use Rattle.context_books.specs.Batches.{place};
ghost use Rattle.context_books.specs.Legal.{is_same_place};
ghost use Rattle.batch_plans.specs.LiveText.{tells_live as tells_live_of};
ghost use Rattle.batch_plans.specs.Calls.{context_of as context_of_call};
ghost use Rattle.batch_plans.specs.Limits.{first_name};
ghost use Rattle.batch_plans.specs.Within.{IsWithinLimits};
ghost use Rattle.batch_plans.specs.Names.{at_position};
ghost use Rattle.batch_plans.specs.ReplyText.{numbered};
ghost use Rattle.context_books.specs.Live.{was_live, looked_up as looked_up_call, looked_up_plan};

use batch_plans::{CallLine, FIRST_NAME, LaneLines, PlainList, Plan, context_of};
use call_places::Entry;
use reply_frames::tells_live;
use std::alloc::{AllocError, Global};

// Puts down that a call's name was live.
fn put(live: &mut [bool], call: usize)
    ensures size { length live.new ≡ length live.old }
    ensures each { (i : ℕ) → i < length live.old → slice_index_or live.new i false
        ≡ (slice_index_or live.old i false || (call == i)) }
{
    if call < live.len() {
        live[call] = true;
    }
}

// Puts down what a note tells of a lane's calls.
fn put_note(live: &mut [bool], lane: u32, note: &Entry)
    ensures size { length live.new ≡ length live.old }
    ensures each { (i : ℕ) → i < length live.old → slice_index_or live.new i false
        ≡ (slice_index_or live.old i false
        || (is_same_place note.now.place (place lane i 0) && tells_live_of note.now.step)) }
{
    let place = note.place;
    if place.lane == lane && place.item == 0 && tells_live(note.step) {
        put(live, place.call as usize);
    }
}

/// Which of so many calls of a lane have a note that tells that its name was live.
pub fn live_calls(
    alloc: Global,
    notes: &[Entry],
    lane: u32,
    count: usize,
) -> Result<Vec<bool>, AllocError>
    ensures size { IfOk result (λ live. length live.items ≡ count) }
    ensures each { IfOk result (λ live. (i : ℕ) → i < count
        → slice_index_or live.items i false ≡ was_live notes.now (place lane i 0)) }
{
    let mut live = vec![in alloc; false; count]?;
    'notes: for note in notes {
        put_note(&mut live, lane, note);
    }
    Ok(live)
}

/// A call as it is served, where a note of it tells whether its name was live: on the place of its
/// context, but for one on a name that wasn't live. That keeps its number, which no context has.
pub fn looked_up(plan: &Plan, call: &CallLine, live: bool) -> CallLine
    requires { IsWithinLimits plan.now }
    ensures { result ≡ (if nat_lt (context_of_call call.now) first_name || live
        then at_position plan.now call.now else call.now) }
{
    if context_of(call) < FIRST_NAME || live {
        plan.at_position(call)
    } else {
        *call
    }
}

// The calls of a lane as they are served.
fn looked_up_lane(
    alloc: Global,
    plan: &Plan,
    notes: &[Entry],
    lane: u32,
    calls: &[CallLine],
) -> Result<PlainList<CallLine>, AllocError>
    requires { IsWithinLimits plan.now }
    ensures { IfOk result (λ served.
        served ≡ numbered (looked_up_call plan.now notes.now lane) 0 calls.now) }
{
    let live = live_calls(alloc, notes, lane, calls.len())?;
    let mut served = Vec::with_capacity(alloc, calls.len())?;
    'calls: for (number, call) in calls.iter().enumerate() {
        served.push(looked_up(plan, call, live[number]))?;
    }
    Ok(PlainList::from_vec(served))
}

/// The lanes of a plan as they are served, where these are the notes of its table: each call on the
/// place of its context, but for those on a name that wasn't live. These keep their number, which no
/// context has.
///
/// Each lane goes through the notes once.
pub fn looked_up_lanes(alloc: Global, plan: &Plan, notes: &[Entry]) -> Result<LaneLines, AllocError>
    requires { IsWithinLimits plan.now }
    ensures { IfOk result (λ lanes. lanes ≡ (looked_up_plan plan.now notes.now).lanes) }
{
    let mut lanes = Vec::new(alloc);
    'lanes: for (lane, calls) in plan.lanes.as_slice().iter().enumerate() {
        lanes.push(looked_up_lane(alloc, plan, notes, lane as u32, calls.as_slice())?)?;
    }
    Ok(PlainList::from_vec(lanes))
}
