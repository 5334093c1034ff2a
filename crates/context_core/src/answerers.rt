//! Who answers the lanes: several threads, or the caller alone.

ghost use Rattle.std.specs.Prelude.{ℕ, ◌≡◌, ◌<◌, length};
ghost use Rattle.std.specs.Thread.{IsSync};
ghost use Rattle.batch_plans.specs.Within.{IsWithinLimits};
ghost use Rattle.context_books.specs.ContextLines.{AreOfLines};
ghost use Rattle.context_core.specs.Core.{Core};
ghost use Rattle.context_core.specs.Following.{AllDone, AreAnswered, AreDone, LaneIsAnswered};

use crate::answers::answer_lane;
use crate::lanes::Lane;
use batch_plans::{LaneAnswers, Plan};
use hpke_context::Context;
use std::thread::{Threads, for_each_mut};

/// Who answers the lanes of a plan.
pub(crate) trait Answerer {
    // What its work takes: that threads can share what they are started by, and that there is one.
    ghost ready: { Self → Type 0 };

    /// Answers all lanes, whose calls are done.
    fn answer_lanes(&self, plan: &Plan, contexts: &[Option<Context>], lanes: &mut [Lane])
        requires ready { ready self.now }
        requires within { IsWithinLimits plan.now }
        requires standing { AreOfLines plan.now.contexts contexts.now }
        requires count { length lanes.old ≡ length plan.now.lanes }
        requires done { (w : Core) × AreDone plan.now contexts.now w lanes.old }
        ensures { (w : Core) → AreDone plan.now contexts.now w lanes.old
            → AreAnswered plan.now contexts.now w lanes.new };
}

// The bytes that are written before a second thread is worth its start.
const SMALL_WORK: usize = 65_536;

// As many threads as test the tags of a large opening.
const MOST_THREADS: usize = 4;

// The room for all ciphertexts, plaintexts and exported secrets.
fn bytes_of(answers: &[LaneAnswers]) -> usize {
    answers.iter().fold(0usize, |bytes, lane| {
        bytes.saturating_add(lane.pool.as_slice().len())
    })
}

/// At most so many threads of a runtime, which answer lanes side by side.
#[derive(Drop)]
pub(crate) struct ByThreads<'a, R: Threads + Sync> {
    rt: &'a R,
    threads: usize,
}

impl<'a, R: Threads + Sync> ByThreads<'a, R> {
    /// Threads that this runtime may start: one, where there is little to write.
    pub(crate) fn new(rt: &'a R, answers: &[LaneAnswers]) -> ByThreads<'a, R>
        ensures sync { IsSync R.row }
        ensures some { 0 < result.threads }
    {
        let threads = if bytes_of(answers) <= SMALL_WORK {
            1
        } else {
            MOST_THREADS
        };
        ByThreads { rt, threads }
    }
}

impl<R: Threads + Sync> Answerer for ByThreads<'_, R> {
    ghost use Rattle.std.specs.Thread.{IsSync};

    ghost ready = { λ a. IsSync R.row × (0 < a.threads) };

    fn answer_lanes(&self, plan: &Plan, contexts: &[Option<Context>], lanes: &mut [Lane]) {
        for_each_mut(
            self.rt,
            lanes,
            self.threads,
            &|number: usize, lane: &mut Lane|
                requires { IsWithinLimits plan.now × AreOfLines plan.now.contexts contexts.now
                    × (number < length plan.now.lanes)
                    × ((w : Core) × AllDone plan.now contexts.now w number lane.now) }
                ensures { (w : Core)
                    → AllDone plan.entry.now contexts.entry.now w number lane.entry.now
                    → LaneIsAnswered plan.entry.now contexts.entry.now w number
                    lane.exit.now.progress }
            { answer_lane(lane, plan, contexts, number) },
        );
    }
}

/// The calling thread alone, which answers lane after lane.
#[derive(Drop)]
pub(crate) struct ByCaller;

impl Answerer for ByCaller {
    ghost use Rattle.std.specs.Prelude.{⊤};

    ghost ready = { λ _. ⊤ };

    fn answer_lanes(&self, plan: &Plan, contexts: &[Option<Context>], lanes: &mut [Lane]) {
        'lanes: for number in 0..lanes.len() {
            answer_lane(&mut lanes[number], plan, contexts, number);
        }
    }
}
