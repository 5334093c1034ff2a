//! The calls of a lane that adds and retires contexts.

ghost use Rattle.std.specs.Prelude.{◌≡◌, ◌+◌, ◌<◌, Some, None, length, slice_get};
ghost use Rattle.batch_plans.specs.Within.{IsWithinLimits};
ghost use Rattle.batch_plans.specs.Names.{line_count};
ghost use Rattle.context_books.specs.Live.{Noting, noting, noting_of};
ghost use Rattle.context_books.specs.LaneCalls.{lane_calls};
ghost use Rattle.lane_workers.specs.LiveLanes.{standing, add_refusal, finds, IsOnContext, MayAnswerLive, IsNotedLive, IsToldLive, IsOneOnLive};

use crate::calls::{Service, put};
use crate::live_lane::LiveLane;
use batch_io::Gate;
use batch_plans::{CallLine, CallRefusal, FIRST_NAME, Plan, Reply, context_of};
use call_places::Act;
use context_books::refuse;
use key_schedule::{PskFault, verify_psk_inputs};
use live_table::LiveTable;
use std::sync::Wait;
use std::thread::Threads;

/// What all lanes share while they are served, with the table of names.
#[derive(Drop)]
pub(crate) struct LiveService<'a, R, G> {
    pub(crate) service: Service<'a, R, G>,
    pub(crate) table: &'a LiveTable,
}

// Why the `add` line of this name is refused (RFC 9180, 5.1, VerifyPSKInputs).
fn psk_refusal(plan: &Plan, name: u32) -> Option<CallRefusal>
    requires within { IsWithinLimits plan.now }
    requires name { name < plan.now.added }
    ensures { result ≡ add_refusal plan.now name }
{
    let contexts = plan.contexts.as_slice();
    let line = &contexts[contexts.len() - plan.added as usize + name as usize];
    let pool = plan.pool.as_slice();
    match verify_psk_inputs(line.mode, line.psk.of(pool), line.psk_id.of(pool)) {
        Ok(()) => None,
        Err(PskFault::Inconsistent) => Some(CallRefusal::PskPair),
        Err(PskFault::Unneeded) => Some(CallRefusal::PskExtra),
        Err(PskFault::Missing) => Some(CallRefusal::PskMissing),
    }
}

impl<R: Threads + Wait + Sync, G: Gate> LiveService<'_, R, G> {
    ghost use Rattle.lane_workers.specs.Services.{live_view};

    // Notes what a call does to a name, and tells whether the name was live.
    fn note(&self, lane: &mut LiveLane, call: u32, name: u32, act: Act) -> bool
        requires { (line : CallLine)
            × MayAnswerLive (live_view self.now) call line lane.old
            × (noting self.now.service.plan.now (standing (live_view self.now)) line
            ≡ Some (record { act = act; name = name })) }
        ensures { IsToldLive (live_view self.now) call result lane.old lane.new }
    {
        let counter = self.service.counter.unwrap();
        let pass = lane.pass.take().unwrap();
        let seat = lane.work.seat.take().unwrap();
        let (live, pass, seat) = self
            .table
            .note(self.service.rt, pass, counter, seat, call, name, act);
        put(&mut lane.pass, pass);
        put(&mut lane.work.seat, seat);
        live
    }

    // Whether a call finds its name live. It is noted what the call does to it, if it is a name of the plan.
    fn finds_live(&self, lane: &mut LiveLane, call: u32, name: u32, act: Act) -> bool
        requires { (line : CallLine)
            × MayAnswerLive (live_view self.now) call line lane.old
            × (noting self.now.service.plan.now (standing (live_view self.now)) line
            ≡ noting_of self.now.service.plan.now act name) }
        ensures { IsToldLive (live_view self.now) call result lane.old lane.new }
    {
        name < self.service.plan.added && self.note(lane, call, name, act)
    }

    // Adds a context, unless its psk inputs are at fault.
    fn add(&self, lane: &mut LiveLane, call: u32, name: u32)
        requires may { MayAnswerLive (live_view self.now) call (CallLine.Add name) lane.old }
        ensures { IsOneOnLive (live_view self.now) call lane.old lane.new }
    {
        if let Some(refusal) = psk_refusal(self.service.plan, name) {
            refuse(&mut lane.work.progress, refusal);
            return;
        }
        let _ = self.note(lane, call, name, Act::Add);
        lane.work.progress.put(Reply::Added);
    }

    // Retires a name, where it is live.
    fn retire(&self, lane: &mut LiveLane, call: u32, name: u32)
        requires may { MayAnswerLive (live_view self.now) call (CallLine.Retire name) lane.old }
        ensures { IsOneOnLive (live_view self.now) call lane.old lane.new }
    {
        if self.finds_live(lane, call, name, Act::Retire) {
            lane.work.progress.put(Reply::Retired);
        } else {
            refuse(&mut lane.work.progress, CallRefusal::NoContext);
        }
    }

    // Whether a call finds its context: one of a context line always may, another one where its name
    // is live.
    fn finds(&self, lane: &mut LiveLane, call: u32, line: &CallLine) -> bool
        requires may { MayAnswerLive (live_view self.now) call line.now lane.old }
        requires call { IsOnContext line.now }
        ensures { (noted : IsNotedLive (live_view self.now) call lane.old
            lane.new) × (finds noted.is_at.pass.seen lane.old.work.lane call line.now ≡ result) }
    {
        let number = context_of(line);
        if number < FIRST_NAME {
            return true;
        }
        self.finds_live(lane, call, number - FIRST_NAME, Act::Look)
    }

    // A call on a context, which it may not find.
    fn call(&self, lane: &mut LiveLane, call: u32, line: &CallLine)
        requires may { MayAnswerLive (live_view self.now) call line.now lane.old }
        requires call { IsOnContext line.now }
        ensures { IsOneOnLive (live_view self.now) call lane.old lane.new }
    {
        if self.finds(lane, call, line) {
            let placed = self.service.plan.at_position(line);
            self.service.reply(&mut lane.work, call, &placed);
        } else {
            refuse(&mut lane.work.progress, CallRefusal::NoContext);
        }
    }

    // A call, done, served or refused.
    pub(crate) fn answer(&self, lane: &mut LiveLane, call: u32, line: &CallLine)
        requires may { MayAnswerLive (live_view self.now) call line.now lane.old }
        ensures { IsOneOnLive (live_view self.now) call lane.old lane.new }
    {
        match *line {
            CallLine::Add { name } => self.add(lane, call, name),
            CallLine::Retire { name } => self.retire(lane, call, name),
            _ => self.call(lane, call, line),
        }
    }
}
