//! Lanes by threads.

ghost use Rattle.std.specs.Prelude.{◌<◌, ◌≤◌, length};
ghost use Rattle.std.specs.Thread.{IsSync};
ghost use Rattle.lane_workers.specs.Lanes.{AreShared};
ghost use Rattle.lane_workers.specs.Groups.{IsFresh, IsServed, AllFresh, AllServed, Each, EachServed};

use crate::calls::Service;
use crate::works::{LaneWork, SharedList};
use batch_io::{Gate, Point};
use batch_plans::Plan;
use stamp_counter::StampCounter;
use std::sync::Wait;
use std::thread::{Threads, join_mut};

/// What lanes share while they are served, and how one of them is served.
pub(crate) trait ServesLanes<L> {
    // The lane may be served.
    ghost may: { Self → L → Type 0 };

    // The lane was served.
    ghost served: { Self → L → L → Type 0 };

    /// Serves the calls of a lane in their order.
    fn serve_lane(&self, lane: &mut L)
        requires { may self.now lane.old }
        ensures { served self.now lane.old lane.new };

    /// Whether the lane has calls. A worker is started for such a lane alone.
    fn has_calls(&self, lane: &L) -> bool;
}

// Whether the lane of this number has calls.
pub(crate) fn is_busy(plan: &Plan, lane: u32) -> bool {
    match plan.lanes.as_slice().get(lane as usize) {
        Some(calls) => !calls.as_slice().is_empty(),
        None => false,
    }
}

impl<R: Threads + Wait + Sync, G: Gate + Sync> ServesLanes<LaneWork> for Service<'_, R, G> {
    ghost may = { λ s w. IsSync R.row × AreShared s.plan.now s.contexts.now s.counter
        × IsFresh s.plan.now s.contexts.now s.counter w };

    ghost served = { λ s w v. IsServed s.plan.now s.contexts.now s.counter w v };

    fn serve_lane(&self, lane: &mut LaneWork) {
        let lines = self.plan.lanes.as_slice()[lane.lane as usize].as_slice();
        'calls: for (call, line) in lines.iter().enumerate() {
            let call = call as u32;
            self.reply(lane, call, line);
            self.gate.reached(lane.lane, call, Point::Answered);
        }
    }

    fn has_calls(&self, lane: &LaneWork) -> bool {
        is_busy(self.plan, lane.lane)
    }
}

// Serves the lanes in order.
fn serve_group<L, S: ServesLanes<L>>(service: &S, lanes: &mut [L])
    requires { Each (S.may service.now) lanes.old }
    ensures { EachServed (S.served service.now) lanes.old lanes.new }
{
    let Some((first, rest)) = lanes.split_first_mut() else {
        return;
    };
    service.serve_lane(first);
    serve_group(service, rest);
}

// How many lanes have calls.
fn busy_count<L, S: ServesLanes<L>>(service: &S, lanes: &[L]) -> usize
    ensures { result ≤ length lanes.now }
{
    let mut busy = 0;
    'lanes: for lane in lanes {
        if service.has_calls(lane) {
            busy += 1;
        }
    }
    busy
}

// How many lanes stand before the one with calls that comes after so many others with calls.
fn group_size<L, S: ServesLanes<L>>(service: &S, lanes: &[L], most: usize) -> usize
    ensures { result ≤ length lanes.now }
{
    let mut left = most;
    'lanes: for (i, lane) in lanes.iter().enumerate() {
        if service.has_calls(lane) {
            if left == 0 {
                return i;
            }
            left -= 1;
        }
    }
    lanes.len()
}

// Serves the lanes by so many workers at most, each of which has a group of lanes that stand side by
// side. How many lanes with calls the groups have differs by one at most, and no group has none,
// unless it is the only one: a worker that has nothing to do isn't started.
#[cycle(serving)]
pub(crate) fn serve_by<R: Threads + Sync, L: Send, S: ServesLanes<L> + Sync>(
    rt: &R,
    service: &S,
    lanes: &mut [L],
    workers: u32,
)
    requires workers { 0 < workers }
    requires may { Each (S.may service.now) lanes.old }
    ensures { EachServed (S.served service.now) lanes.old lanes.new }
{
    let busy = busy_count(service, lanes);
    if workers == 1 || busy <= 1 {
        serve_group(service, lanes);
        return;
    }
    let size = group_size(service, lanes, busy.div_ceil(workers as usize));
    let (group, others) = lanes.split_at_mut(size);
    serve_beside(rt, service, group, others, workers - 1);
}

// A group of lanes by a worker of its own, and the others by so many.
#[cycle(serving)]
fn serve_beside<R: Threads + Sync, L: Send, S: ServesLanes<L> + Sync>(
    rt: &R,
    service: &S,
    group: &mut [L],
    others: &mut [L],
    workers: u32,
)
    requires workers { 0 < workers }
    requires group { Each (S.may service.now) group.old }
    requires others { Each (S.may service.now) others.old }
    ensures group { EachServed (S.served service.now) group.old group.new }
    ensures others { EachServed (S.served service.now) others.old others.new }
{
    join_mut(
        rt,
        &mut ||
            requires { IsSync S.row × Each (S.may service.now) group.now }
            ensures { EachServed (S.served service.entry.now) group.entry.now group.exit.now }
        { serve_group(service, group) },
        &mut ||
            requires { IsSync R.row × IsSync S.row × (0 < workers)
                × Each (S.may service.now) others.now }
            ensures { EachServed (S.served service.entry.now) others.entry.now others.exit.now }
        { serve_by(rt, service, others, workers) },
    );
}

/// Serves the lanes of a plan by so many workers, from 1 to 16.
///
/// The lanes are divided among the workers in groups that stand side by side, which have as many lanes
/// with calls, or one less. No more workers are started than there are such lanes. `gate` is told after
/// each draw, after each guess, and when a call's replies stand. In the end `LaneIsServed` says of each
/// lane what its passes and its answers show.
///
/// Takes no memory. It may wait for turns at the contexts' locks.
pub fn serve<R: Threads + Wait + Sync, G: Gate + Sync>(
    rt: &R,
    plan: &Plan,
    contexts: &SharedList,
    counter: Option<&StampCounter>,
    lanes: &mut [LaneWork],
    workers: u32,
    gate: &G,
)
    requires workers { (0 < workers) × (workers ≤ 16) }
    requires shared { AreShared plan.now contexts.now counter }
    requires fresh { AllFresh plan.now contexts.now counter lanes.old }
    ensures { AllServed plan.now contexts.now counter.entry lanes.old lanes.new }
{
    let service = Service {
        rt,
        plan,
        contexts: contexts.as_slice(),
        counter,
        gate,
    };
    serve_by(rt, &service, lanes, workers);
}
