//! Room for the replies of a plan.

ghost use Rattle.std.specs.Prelude.{◌≡◌, ◌<◌, ◌^◌, length, map, sum_by, IfOk};
ghost use Rattle.batch_plans.specs.Within.{IsCallWithin, IsPlain, IsWithinLimits};
ghost use Rattle.batch_plans.specs.Names.{all_live};
ghost use Rattle.batch_plans.specs.Room.{opened_room, served_room, call_room, call_replies};
ghost use Rattle.batch_plans.specs.Room.{call_batches, lane_room, room_for, most_room};
ghost use Rattle.batch_plans.specs.Room.{IsLaneWithin};

use crate::calls::{call_refusal, items_of, keeps_guess, size_of};
use crate::items::items_from;
use crate::journals::journals_room;
use crate::limits::TAG_SIZE;
use crate::plan::{CallLine, LaneLines, Plan};
use crate::replies::{
    Answers, Batch, ContextReplies, KeyReplies, LaneAnswerList, LaneAnswers, Reply,
};
use byte_strings::PlainList;
use call_places::Item;
use std::alloc::{AllocError, Global};

const BLANK_BATCH: Batch = Batch {
    guess: 0,
    missed: 0,
};

// The room of the plaintext of an item.
fn opened_room(item: &Item) -> usize
    ensures { result ≡ opened_room item.now }
{
    (item.text.len as usize).saturating_sub(TAG_SIZE)
}

// The room of the plaintexts of an opening of several messages.
fn opening_room(items: &[Item]) -> usize
    requires { sum_by opened_room items.now < 2 ^ 32 }
    ensures { result ≡ sum_by opened_room items.now }
{
    items.iter().map(opened_room).sum()
}

// The room of the replies to a call that is served.
fn served_room(plan: &Plan, call: &CallLine) -> usize
    requires within { IsCallWithin (length plan.now.items) (length plan.now.pool) call.now }
    requires small { most_room plan.now.items call.now < 2 ^ 32 }
    ensures { result ≡ served_room plan.now.items call.now }
{
    match *call {
        CallLine::Seal { item, .. } => item.text.len as usize + TAG_SIZE,
        CallLine::Unseal { item, .. } => opened_room(&item),
        CallLine::UnsealAll { first, count, .. } => {
            opening_room(items_from(plan.items.as_slice(), first, count))
        }
        _ => size_of(call) as usize,
    }
}

// How many bytes, replies and guesses some calls need.
#[derive(Clone, Copy, Default)]
struct Needs {
    room: usize,
    replies: usize,
    batches: usize,
}

fn call_needs(plan: &Plan, export_limits: &[u32], call: &CallLine) -> Needs
    requires within { IsCallWithin (length plan.now.items) (length plan.now.pool) call.now }
    requires small { most_room plan.now.items call.now < 2 ^ 32 }
    ensures room { result.room ≡ call_room plan.now export_limits.now call.now }
    ensures replies { result.replies ≡ call_replies plan.now export_limits.now call.now }
    ensures batches { result.batches ≡ call_batches plan.now export_limits.now call.now }
{
    match call_refusal(plan.contexts.as_slice(), export_limits, call) {
        None => Needs {
            room: served_room(plan, call),
            replies: items_of(call) as usize,
            batches: usize::from(keeps_guess(call)),
        },
        Some(_) => Needs {
            room: 0,
            replies: 1,
            batches: 0,
        },
    }
}

fn lane_needs(plan: &Plan, export_limits: &[u32], calls: &[CallLine]) -> Needs
    requires { IsLaneWithin plan.now calls.now }
    ensures room { result.room ≡ sum_by (call_room plan.now export_limits.now) calls.now }
    ensures replies { result.replies ≡ sum_by (call_replies plan.now export_limits.now) calls.now }
    ensures batches { result.batches ≡ sum_by (call_batches plan.now export_limits.now) calls.now }
{
    let mut needs = Needs::default();
    'calls: for call in calls {
        let more = call_needs(plan, export_limits, call);
        needs.room += more.room;
        needs.replies += more.replies;
        needs.batches += more.batches;
    }
    needs
}

fn lane_room(
    alloc: Global,
    plan: &Plan,
    export_limits: &[u32],
    calls: &[CallLine],
) -> Result<LaneAnswers, AllocError>
    requires { IsLaneWithin plan.now calls.now }
    ensures { IfOk result (λ lane. lane ≡ lane_room plan.now export_limits.now calls.now) }
{
    let needs = lane_needs(plan, export_limits, calls);
    let pool = vec![in alloc; 0u8; needs.room]?;
    let replies = vec![in alloc; Reply::Blank; needs.replies]?;
    let batches = vec![in alloc; BLANK_BATCH; needs.batches]?;
    Ok(LaneAnswers {
        pool: PlainList::from_vec(pool),
        replies: PlainList::from_vec(replies),
        batches: PlainList::from_vec(batches),
    })
}

fn lanes_room(
    alloc: Global,
    plan: &Plan,
    export_limits: &[u32],
    lanes: &LaneLines,
) -> Result<LaneAnswerList, AllocError>
    requires within { IsWithinLimits plan.now }
    requires lanes { lanes.now ≡ (all_live plan.now).lanes }
    ensures { IfOk result (λ rooms.
        rooms ≡ map (lane_room plan.now export_limits.now) lanes.now) }
{
    let mut rooms = Vec::new(alloc);
    'lanes: for calls in lanes.as_slice() {
        rooms.push(lane_room(alloc, plan, export_limits, calls.as_slice())?)?;
    }
    Ok(PlainList::from_vec(rooms))
}

impl Answers {
    /// The answers of a plan before its lanes are served: each reply is `Blank`, each guess and each
    /// mark of a journal is 0 in all its numbers, and all room that replies, guesses and journals
    /// will need is taken.
    ///
    /// `keys` and `contexts` are the replies of the set-up. `export_limits` has for each context
    /// the most bytes that it exports, 255·Nh (RFC 9180, 5.3), and 0 where it was refused. A call on
    /// a context that lanes add has the room for the case that it may be called. There are no notes.
    /// Takes time linear in the plan.
    pub fn for_plan(
        alloc: Global,
        plan: &Plan,
        keys: KeyReplies,
        contexts: ContextReplies,
        export_limits: &[u32],
    ) -> Result<Answers, AllocError>
        requires { IsWithinLimits plan.now }
        ensures room { IfOk result (λ answers.
            answers ≡ room_for (all_live plan.now) keys contexts export_limits.now) }
        ensures plain { IsPlain plan.now → IfOk result (λ answers.
            answers ≡ room_for plan.now keys contexts export_limits.now) }
    {
        let calls = plan.lanes_at_positions(alloc)?;
        let lanes = lanes_room(alloc, plan, export_limits, &calls)?;
        let journals = journals_room(alloc, plan.contexts.as_slice(), export_limits, &calls)?;
        Ok(Answers {
            keys,
            contexts,
            lanes,
            journals,
            notes: PlainList::from_vec(Vec::new(alloc)),
        })
    }
}
