//! Lanes that add and retire contexts, by threads.

ghost use Rattle.std.specs.Prelude.{◌<◌, ◌≤◌, Some};
ghost use Rattle.std.specs.Thread.{IsSync};
ghost use Rattle.lane_workers.specs.LiveLanes.{lives, AreSharedLive};
ghost use Rattle.lane_workers.specs.LiveReturned.{IsFreshLive, IsServedLive, AllFreshLive, AllServedLive};

use crate::calls::Service;
use crate::live_calls::LiveService;
use crate::live_lane::LiveLane;
use crate::serving::{ServesLanes, is_busy, serve_by};
use crate::works::SharedList;
use batch_io::{Gate, Point};
use batch_plans::Plan;
use live_table::LiveTable;
use stamp_counter::StampCounter;
use std::sync::Wait;
use std::thread::Threads;

impl<R: Threads + Wait + Sync, G: Gate + Sync> ServesLanes<LiveLane> for LiveService<'_, R, G> {
    ghost use Rattle.lane_workers.specs.Services.{live_view};

    ghost may = { λ s l. IsSync R.row × AreSharedLive (live_view s) × IsFreshLive (live_view s) l };

    ghost served = { λ s l m. IsServedLive (live_view s) l m };

    fn serve_lane(&self, lane: &mut LiveLane) {
        let lines = self.service.plan.lanes.as_slice()[lane.work.lane as usize].as_slice();
        'calls: for (call, line) in lines.iter().enumerate() {
            let call = call as u32;
            self.answer(lane, call, line);
            self.service
                .gate
                .reached(lane.work.lane, call, Point::Answered);
        }
    }

    fn has_calls(&self, lane: &LiveLane) -> bool {
        is_busy(self.service.plan, lane.work.lane)
    }
}

/// Serves the lanes of a plan that add and retire contexts, by so many workers, from 1 to 16.
///
/// `contexts` has the contexts of the `add` lines behind those of the context lines, and `table` a name
/// for each. The lanes are divided among the workers as by [`serve`](crate::serve), and `gate` is told
/// of the same points. In the end `LiveLaneIsServed` says of each lane what its passes of the table and
/// of the contexts, and its answers, show.
///
/// Takes no memory. It may wait for turns at the locks of the contexts and of the table.
pub fn serve_live<R: Threads + Wait + Sync, G: Gate + Sync>(
    rt: &R,
    plan: &Plan,
    contexts: &SharedList,
    table: &LiveTable,
    counter: &StampCounter,
    lanes: &mut [LiveLane],
    workers: u32,
    gate: &G,
)
    requires workers { (0 < workers) × (workers ≤ 16) }
    requires shared { AreSharedLive (lives plan.now contexts.now table.now (Some counter)) }
    requires fresh { AllFreshLive (lives plan.now contexts.now table.now (Some counter)) lanes.old }
    ensures { AllServedLive (lives plan.now contexts.now table.now (Some counter.entry)) lanes.old
        lanes.new }
{
    let service = LiveService {
        service: Service {
            rt,
            plan,
            contexts: contexts.as_slice(),
            counter: Some(counter),
            gate,
        },
        table,
    };
    serve_by(rt, &service, lanes, workers);
}
