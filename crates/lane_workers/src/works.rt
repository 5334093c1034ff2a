//! A lane, with all that it needs to be served.

ghost use Rattle.std.specs.Prelude.{ℕ, List, Option, ◌≡◌, ◌<◌, ◌≤◌, ◌^◌, All, IfOk, IsSome, false, length};
ghost use Rattle.std.specs.Borrow.{Bor};
ghost use Rattle.stamp_counter.specs.Seats.{CounterView};
ghost use Rattle.batch_plans.specs.declared.plan.Plan.{Plan};
ghost use Rattle.batch_plans.specs.Calls.{keeps_guess};
ghost use Rattle.batch_plans.specs.Limits.{items_of};
ghost use Rattle.shared_context.specs.Calls.{SharedView};
ghost use Rattle.lane_workers.specs.declared.works.LaneWork.{LaneWork};
ghost use Rattle.lane_workers.specs.Groups.{IsFresh, IsDone};
ghost use Rattle.lane_workers.specs.Returned.{IsGiven, IsReturned};
ghost use Rattle.lane_workers.specs.LiveReturned.{IsPrepared, HasAllAnswers, GivesParts};

use aes_gcm::Checks;
use batch_plans::{
    CallLine, LaneAnswers, LaneProgress, PlainList, Plan, context_of, items_of, keeps_guess,
};
use call_places::Step;
use shared_context::SharedContext;
use speculative_open::GuessTable;
use stamp_counter::StampSeat;
use std::alloc::{AllocError as OutOfMemory, Global};
use std::thread::Threads;
use turn_lock::Pass;

/// For each context line the lane's pass, where its context stands.
pub type LanePasses = PlainList<Option<Pass>>;

/// For each context line its context, where it stands.
pub type SharedList = PlainList<Option<SharedContext>>;

// An opening that a lane made: on which context, and the number that was due there after it.
#[derive(Clone, Copy)]
pub(crate) struct LastOpening {
    pub(crate) context: u32,
    pub(crate) due: u64,
}

/// A lane with its passes, its seat and its answers.
#[derive(Drop)]
pub struct LaneWork {
    pub(crate) lane: u32,
    pub(crate) passes: Vec<Option<Pass>>,
    pub(crate) seat: Option<StampSeat>,
    pub(crate) table: GuessTable,
    pub(crate) steps: Vec<Step>,
    pub(crate) checks: Checks,
    pub(crate) progress: LaneProgress,
    pub(crate) last_opening: Option<LastOpening>,
}

// The most items of one call.
fn most_items(calls: &[CallLine]) -> usize
    ensures { All (λ call. items_of call ≤ result) calls.now }
{
    let mut most = 1;
    'calls: for call in calls {
        most = most.max(items_of(call) as usize);
    }
    most
}

// Room for an opening of so many items: for its guess, and for its steps.
fn room_for(alloc: Global, most: usize) -> Result<(GuessTable, Vec<Step>), OutOfMemory>
    ensures table { IfOk result (λ r. r.0.room ≡ most) }
    ensures steps { IfOk result (λ r. length r.1.items ≡ most) }
{
    let table = GuessTable::with_room(alloc, most)?;
    let steps = vec![in alloc; Step::Failed; most]?;
    Ok((table, steps))
}

impl LaneWork {
    /// A lane before its first call, with room for its largest opening.
    ///
    /// Where there is no memory, all that it was given is dropped.
    pub fn prepare<R: Threads + Sync>(
        rt: &R,
        alloc: Global,
        plan: &Plan,
        lane: u32,
        passes: LanePasses,
        seat: Option<StampSeat>,
        answers: LaneAnswers,
    ) -> Result<LaneWork, OutOfMemory>
        requires there { lane < length plan.now.lanes }
        requires room { length answers.pool < 2 ^ 32 }
        ensures lane { IfOk result (λ w. w.lane ≡ lane) }
        ensures fresh { IfOk result (λ w. (contexts : List (Option SharedView))
            (counter : Option (Bor CounterView))
            → IsGiven plan.now contexts counter lane passes seat answers
            → IsFresh plan.now contexts counter w) }
        ensures prepared { IfOk result (IsPrepared plan.now lane passes seat answers) }
    {
        let most = most_items(plan.lanes.as_slice()[lane as usize].as_slice());
        let (table, steps) = room_for(alloc, most)?;
        Ok(LaneWork {
            lane,
            passes: passes.into_vec(),
            seat,
            table,
            steps,
            checks: Checks::new(rt),
            progress: LaneProgress::new(answers),
            last_opening: None,
        })
    }

    // A guess that takes no turn: what was due after the lane's last opening, where that was on the same
    // context. It is for openings of one message, which keep no guess.
    pub(crate) fn guess_by_last(&self, line: &CallLine) -> Option<u64>
        ensures { IsSome result → keeps_guess line.now ≡ false }
    {
        match self.last_opening {
            Some(last) if last.context == context_of(line) && !keeps_guess(line) => Some(last.due),
            _ => None,
        }
    }

    /// What the lane gives back, once all its replies and guesses were put.
    pub fn finish(self) -> (LanePasses, Option<StampSeat>, LaneAnswers)
        requires { HasAllAnswers self }
        ensures served { (plan : Plan) (contexts : List (Option SharedView))
            (counter : Option (Bor CounterView)) → IsDone plan contexts counter self
            → IsReturned plan contexts counter self.lane result.0 result.1 result.2 }
        ensures parts { GivesParts self result.0 result.1 result.2 }
    {
        let LaneWork {
            passes,
            seat,
            progress,
            ..
        } = self;
        (PlainList::from_vec(passes), seat, progress.finish())
    }
}
