//! The lanes of a plan whose contexts stay.

ghost use Rattle.std.specs.Prelude.{◌≡◌, ◌<◌, ◌≤◌, length};

use crate::serving::RunsLanes;
use crate::tables::{Left, Table};
use batch_plans::{LaneAnswers, PlainList};
use call_places::Entry;
use context_books::Book;
use lane_workers::{LaneWork, served_lanes_make_a_run};
use std::alloc::{AllocError as OutOfMemory, Global};
use std::thread::Threads;

impl RunsLanes for Table<'_> {
    ghost use Rattle.lane_workers.specs.Turns.{views};
    ghost use Rattle.shared_runs.specs.Tables.{IsOwnTable, HasGiven, IsReady, IsDoneLane};
    ghost use Rattle.shared_runs.specs.Collected.{Collected, IsRun};

    type Lane = LaneWork;

    type Left = Left;

    ghost plan = { λ t. t.plan.now };

    ghost contexts = { λ t. views t.contexts };

    ghost kept = { IsOwnTable };

    ghost given = { HasGiven };

    ghost ready = { IsReady };

    ghost done = { IsDoneLane };

    ghost back = { Collected };

    ghost run = { λ t answers journals notes. IsRun t.plan.now (views t.contexts) answers journals };

    fn prepare<R: Threads + Sync>(
        &self,
        rt: &R,
        alloc: Global,
        left: &mut Left,
        lane: u32,
        answers: LaneAnswers,
    ) -> Result<LaneWork, OutOfMemory> {
        let (passes, seat) = self.hand_out(alloc, left)?;
        LaneWork::prepare(rt, alloc, self.plan, lane, passes, Some(seat), answers)
    }

    fn take_back(&self, left: &mut Left, lane: LaneWork) -> LaneAnswers {
        let (passes, _note, answers) = lane.finish();
        self.put_back(left, passes);
        answers
    }

    fn close(
        self,
        left: Left,
        books: &mut Vec<Option<Book>>,
        notes: PlainList<Entry>,
    ) -> PlainList<Entry> {
        self.close_contexts(left, books);
        served_lanes_make_a_run();
        notes
    }
}
