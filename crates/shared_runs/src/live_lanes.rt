//! The lanes of a plan that add and retire contexts.

ghost use Rattle.std.specs.Prelude.{◌≡◌, ◌<◌, ◌≤◌, length};

use crate::live_contexts::{LiveContexts, LiveLeft};
use crate::serving::RunsLanes;
use batch_plans::{LaneAnswers, PlainList};
use call_places::Entry;
use context_books::Book;
use lane_workers::{LaneWork, LiveLane, live_lanes_make_a_run};
use std::alloc::{AllocError as OutOfMemory, Global};
use std::thread::Threads;

impl RunsLanes for LiveContexts<'_> {
    ghost use Rattle.batch_plans.specs.Names.{all_live};
    ghost use Rattle.lane_workers.specs.Turns.{views};
    ghost use Rattle.shared_runs.specs.LiveContexts.{AreLive, HasGivenLive, IsReadyLive, IsDoneLiveLane};
    ghost use Rattle.shared_runs.specs.LiveCollected.{CollectedLive, IsLiveRun};

    type Lane = LiveLane;

    type Left = LiveLeft;

    ghost plan = { λ t. all_live t.shared.plan.now };

    ghost contexts = { λ t. views t.shared.contexts };

    ghost kept = { AreLive };

    ghost given = { HasGivenLive };

    ghost ready = { IsReadyLive };

    ghost done = { IsDoneLiveLane };

    ghost back = { CollectedLive };

    ghost run = { λ t answers journals notes. IsLiveRun t.shared.plan.now (views t.shared.contexts)
        answers journals notes };

    fn prepare<R: Threads + Sync>(
        &self,
        rt: &R,
        alloc: Global,
        left: &mut LiveLeft,
        lane: u32,
        answers: LaneAnswers,
    ) -> Result<LiveLane, OutOfMemory> {
        let (passes, seat) = self.shared.hand_out(alloc, &mut left.shared)?;
        let plan = self.shared.plan;
        let work = LaneWork::prepare(rt, alloc, plan, lane, passes, Some(seat), answers)?;
        let Some(pass) = left.passes.take() else {
            unreachable!()
        };
        Ok(LiveLane::new(work, pass))
    }

    fn take_back(&self, left: &mut LiveLeft, lane: LiveLane) -> LaneAnswers {
        let (work, pass) = lane.finish();
        let (passes, _note, answers) = work.finish();
        self.shared.put_back(&mut left.shared, passes);
        left.passes.put(pass);
        answers
    }

    fn close(
        self,
        left: LiveLeft,
        books: &mut Vec<Option<Book>>,
        _notes: PlainList<Entry>,
    ) -> PlainList<Entry> {
        let LiveContexts { shared, names } = self;
        let LiveLeft {
            shared: mut left,
            passes,
        } = left;
        let (notes, seat) = names.close(passes);
        shared.counter.join(&mut left.seat, seat);
        shared.close_contexts(left, books);
        live_lanes_make_a_run();
        PlainList::from_vec(notes.into_vec())
    }
}
