//! Shared contexts, the counter of their stamps, and the passes that are with no lane.

ghost use Rattle.std.specs.Prelude.{ℕ, ◌≡◌, ◌+◌, ◌<◌, ◌≤◌, ◌++◌, ◌∷◌, [], List, Option, length, IfOk};
ghost use Rattle.turn_lock.specs.Passes.{PassView};
ghost use Rattle.stamp_counter.specs.Seats.{fresh_seat};
ghost use Rattle.batch_plans.specs.Within.{IsWithinLimits};
ghost use Rattle.context_books.specs.ContextLines.{AreOfLines};
ghost use Rattle.lane_workers.specs.Turns.{views};
ghost use Rattle.shared_runs.specs.Tables.{IsTable, HasStamps, HasGiven, IsHanded};
ghost use Rattle.shared_runs.specs.Collected.{ArePassesOf, AreBack};

use crate::sharing::{Counted, count_stamps, share_all};
use batch_plans::{LaneLines, PlainList, Plan};
use context_books::all_quotas;
use hpke_context::Context;
use lane_workers::{LanePasses, SharedList, put_passes, take_passes};
use stamp_counter::{StampCounter, StampSeat};
use std::alloc::{AllocError as OutOfMemory, Global};
use turn_lock::PassList;

/// The contexts of a plan, shared by lanes.
#[derive(Drop)]
pub(crate) struct Table<'a> {
    pub(crate) plan: &'a Plan,
    /// The lanes that share the contexts, with the calls for which they have their quotas. They
    /// are those of the plan, or as many others.
    pub(crate) lanes: &'a LaneLines,
    /// For each context line its context, where it stands.
    pub(crate) contexts: SharedList,
    pub(crate) counter: StampCounter,
}

/// What of a table is with no lane.
#[derive(Drop)]
pub(crate) struct Left {
    /// For each context that is shared its passes.
    pub(crate) passes: Vec<Option<PassList>>,
    /// A seat of which lanes get notes.
    pub(crate) seat: StampSeat,
}

impl<'a> Table<'a> {
    /// The contexts that stand, shared by these lanes, and a seat from which so many other stamps
    /// may be drawn, 65,536 at most.
    ///
    /// The contexts are taken out of their slots, some of them also where memory runs out.
    pub(crate) fn new(
        alloc: Global,
        plan: &'a Plan,
        lanes: &'a LaneLines,
        contexts: &mut [Option<Context>],
        others: u32,
    ) -> Result<(Table<'a>, Left, StampSeat), OutOfMemory>
        requires within { IsWithinLimits (record plan.now { lanes = lanes.now }) }
        requires standing { AreOfLines plan.now.contexts contexts.old }
        requires lanes { 0 < length lanes.now }
        requires others { others ≤ 65536 }
        ensures plan { IfOk result (λ r. r.0.plan.now ≡ plan.now) }
        ensures lanes { IfOk result (λ r. r.0.lanes.now ≡ lanes.now) }
        ensures contexts { IfOk result (λ r. views r.0.contexts ≡ contexts.old) }
        ensures table { IfOk result (λ r. IsTable r.0) }
        ensures given { IfOk result (λ r. HasGiven r.0 0 r.1) }
        ensures seat { IfOk result (λ r. r.2 ≡ fresh_seat r.0.counter.id others) }
        ensures stamps { IfOk result (λ r. HasStamps others r.0) }
    {
        let all = all_quotas(alloc, lanes, contexts)?;
        let mut counted = count_stamps(alloc, &all, others)?;
        let (shared, passes) = share_all(alloc, contexts, &all, &mut counted.seats)?;
        let Counted {
            counter,
            seat,
            other,
            ..
        } = counted;
        let table = Table {
            plan,
            lanes,
            contexts: PlainList::from_vec(shared),
            counter,
        };
        Ok((table, Left { passes, seat }, other))
    }

    /// What the next lane needs to be served: its passes, and a note of the counter.
    pub(crate) fn hand_out(
        &self,
        alloc: Global,
        left: &mut Left,
    ) -> Result<(LanePasses, StampSeat), OutOfMemory>
        requires given { (lane : ℕ) × HasGiven self.now lane left.old }
        ensures handed { IfOk result (λ r. (lane : ℕ) → lane < length self.now.lanes.now
            → HasGiven self.now lane left.old → IsHanded self.now lane r.0 r.1) }
        ensures given { IfOk result (λ r. (lane : ℕ) → lane < length self.now.lanes.now
            → HasGiven self.now lane left.old → HasGiven self.now (lane + 1) left.new) }
    {
        let passes = take_passes(alloc, &mut left.passes)?;
        let seat = self.counter.note(&mut left.seat);
        Ok((passes, seat))
    }

    /// Takes the passes of the next lane back.
    pub(crate) fn put_back(&self, left: &mut Left, passes: LanePasses)
        requires { (given : List (List (Option PassView))) × AreBack self.now left.old given
            × (length given < length self.now.lanes.now)
            × ArePassesOf self.now (length given) passes }
        ensures { (given : List (List (Option PassView))) → AreBack self.now left.old given
            → length given < length self.now.lanes.now
            → ArePassesOf self.now (length given) passes
            → AreBack self.now left.new (given ++ passes ∷ []) }
    {
        put_passes(&mut left.passes, passes);
    }
}
