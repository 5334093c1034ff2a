//! Contexts that lanes share, with the table of the names that they add and retire.

ghost use Rattle.std.specs.Prelude.{◌≡◌, ◌<◌, List, All, IfOk, length};
ghost use Rattle.batch_plans.specs.Within.{IsWithinLimits};
ghost use Rattle.batch_plans.specs.Names.{all_live};
ghost use Rattle.context_books.specs.ContextLines.{AreOfLines};
ghost use Rattle.lane_workers.specs.LiveLanes.{AddsOneOf};
ghost use Rattle.lane_workers.specs.Turns.{views};
ghost use Rattle.shared_runs.specs.LiveContexts.{AddsStand, AreLive, HasGivenLive};

use crate::noting::{note_quotas, total};
use crate::tables::{Left, Table};
use batch_plans::{LaneLines, Plan};
use hpke_context::Context;
use live_table::LiveTable;
use std::alloc::{AllocError as OutOfMemory, Global};
use turn_lock::PassList;

/// The contexts of a plan, shared by its lanes, and the table of the names that they add and retire.
#[derive(Drop)]
pub(crate) struct LiveContexts<'a> {
    pub(crate) shared: Table<'a>,
    pub(crate) names: LiveTable,
}

/// What of both is with no lane.
#[derive(Drop)]
pub(crate) struct LiveLeft {
    pub(crate) shared: Left,
    /// The passes of the table of names.
    pub(crate) passes: PassList,
}

impl<'a> LiveContexts<'a> {
    /// The contexts that stand, shared by the lanes of the plan. `lanes` has their calls with the
    /// places of their contexts.
    pub(crate) fn new(
        alloc: Global,
        plan: &'a Plan,
        lanes: &'a LaneLines,
        contexts: &mut [Option<Context>],
    ) -> Result<(LiveContexts<'a>, LiveLeft), OutOfMemory>
        requires within { IsWithinLimits plan.now }
        requires some { 0 < length plan.now.lanes }
        requires placed { lanes.now ≡ (all_live plan.now).lanes }
        requires named { All (All (AddsOneOf plan.now.added)) plan.now.lanes }
        requires standing { AreOfLines plan.now.contexts contexts.old }
        requires stands { AddsStand plan.now contexts.old }
        ensures plan { IfOk result (λ r. r.0.shared.plan.now ≡ plan.now) }
        ensures contexts { IfOk result (λ r. views r.0.shared.contexts ≡ contexts.old) }
        ensures live { IfOk result (λ r. AreLive r.0) }
        ensures given { IfOk result (λ r. HasGivenLive r.0 0 r.1) }
    {
        let quotas = note_quotas(alloc, plan, contexts)?;
        let total = total(&quotas);
        let (shared, left, seat) = Table::new(alloc, plan, lanes, contexts, total)?;
        let (names, passes) = LiveTable::new(alloc, plan.added, &quotas, seat)?;
        let live = LiveContexts { shared, names };
        Ok((
            live,
            LiveLeft {
                shared: left,
                passes,
            },
        ))
    }
}
