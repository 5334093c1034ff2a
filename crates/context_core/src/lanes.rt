//! A lane on its way: its next step.

ghost use Rattle.std.specs.Prelude.{ℕ, ◌≡◌, ◌<◌, length};
ghost use Rattle.context_books.specs.LaneCalls.{lane_calls};
ghost use Rattle.context_core.specs.declared.books.Books.{Books};
ghost use Rattle.context_core.specs.Following.{Finishes, MayStep, Steps};

use crate::books::{Books, Opening, draw, due, settle};
use batch_plans::{CallLine, LaneProgress, Plan, context_of};
use call_places::{Place, Step};
use context_books::{Draw, items_of_opening, refusal_of, standing};
use hpke_context::Context;
use speculative_open::{Crew, GuessTable};

/// How far a lane is with a call. The last stage of a call that is done tells what it is answered
/// with.
#[derive(Clone, Copy)]
pub(crate) enum Stage {
    /// It has no place. A call that is refused and an export have no other stage.
    Fresh,
    /// A seal has its place, and its number where there was one.
    Drawn(Draw),
    /// An opening keeps the number that was due.
    Guessed(u64),
    /// The lane's table tells of the tags around the guess.
    Tested,
    /// The items of an opening have their places; the number `first` was due before them, and the
    /// guess missed so many of theirs. Their steps begin at `start` in the list of the lane.
    Settled {
        guess: u64,
        first: u64,
        missed: u32,
        start: usize,
    },
}

/// A lane of a plan while its calls are served.
#[derive(Drop)]
pub(crate) struct Lane {
    /// The number of the next call.
    pub(crate) call: usize,
    pub(crate) stage: Stage,
    /// The last stage of each call before it, and room for those of the others.
    pub(crate) done: Vec<Stage>,
    pub(crate) table: GuessTable,
    /// The steps of the items of all openings, of which so many are settled.
    pub(crate) steps: Vec<Step>,
    pub(crate) settled: usize,
    /// The answers, of which none is put before all calls are done.
    pub(crate) progress: LaneProgress,
}

/// The calls of the lane of this number.
pub(crate) fn calls_of(plan: &Plan, lane: usize) -> &[CallLine]
    requires { lane < length plan.now.lanes }
    ensures { result.now ≡ lane_calls plan.now lane }
{
    plan.lanes.as_slice()[lane].as_slice()
}

impl Lane {
    /// Does the next step of a call of this lane.
    pub(crate) fn step<C: Crew>(
        &mut self,
        crew: &C,
        plan: &Plan,
        contexts: &[Option<Context>],
        books: &mut Books,
        lane: u32,
        call: &CallLine,
    )
        requires ready { C.ready crew.now }
        requires may { MayStep plan.now contexts.now lane self.old books.old call.now }
        ensures { Steps plan.now contexts.now lane call.now self.old self.new books.old
            books.new }
    {
        match self.stage {
            Stage::Fresh => self.begin(plan, contexts, books, lane, call),
            Stage::Guessed(guess) => self.test(crew, plan, contexts, call, guess),
            Stage::Tested => self.commit(plan, contexts, books, lane, call),
            Stage::Drawn(_) | Stage::Settled { .. } => self.finish(),
        }
    }

    // Finish of a call that is refused, or the first step of one that is served.
    fn begin(
        &mut self,
        plan: &Plan,
        contexts: &[Option<Context>],
        books: &mut Books,
        lane: u32,
        call: &CallLine,
    )
        requires stage { self.old.stage ≡ Stage.Fresh }
        requires may { MayStep plan.now contexts.now lane self.old books.old call.now }
        ensures { Steps plan.now contexts.now lane call.now self.old self.new books.old
            books.new }
    {
        if refusal_of(contexts, call).is_some() {
            self.finish();
            return;
        }
        match *call {
            CallLine::Seal { context, .. } => {
                let place = Place {
                    lane,
                    call: self.call as u32,
                    item: 0,
                };
                self.stage = Stage::Drawn(draw(books, context, place));
            }
            CallLine::Unseal { context, .. } | CallLine::UnsealAll { context, .. } => {
                self.stage = Stage::Guessed(due(books, context));
            }
            CallLine::Export { .. } => self.finish(),
            CallLine::Add { .. } | CallLine::Retire { .. } => unreachable!(),
        }
    }

    // Finish: the call is done. Its replies are put when all calls are.
    fn finish(&mut self)
        requires { self.old.call < length self.old.done.items }
        ensures { Finishes self.old self.new }
    {
        self.done[self.call] = self.stage;
        self.call += 1;
        self.stage = Stage::Fresh;
    }

    // Check: tests the tags of an opening around the guess.
    fn test<C: Crew>(
        &mut self,
        crew: &C,
        plan: &Plan,
        contexts: &[Option<Context>],
        call: &CallLine,
        guess: u64,
    )
        requires ready { C.ready crew.now }
        requires stage { self.old.stage ≡ Stage.Guessed guess }
        requires may { (lane : ℕ) × (books : Books)
            × MayStep plan.now contexts.now lane self.old books call.now }
        ensures { (lane : ℕ) (books : Books)
            → Steps plan.now contexts.now lane call.now self.old self.new books books }
    {
        let items = items_of_opening(plan, call);
        let Some(context) = standing(contexts, context_of(call)) else {
            unreachable!()
        };
        let (Some(key), Some(base_nonce)) = (context.cipher(), context.base_nonce()) else {
            unreachable!()
        };
        let pool = plan.pool.as_slice();
        let limit = context.limit();
        crew.fill(&mut self.table, key, base_nonce, guess, limit, pool, items);
        self.stage = Stage::Tested;
    }

    // Commit: the items of an opening get their places.
    fn commit(
        &mut self,
        plan: &Plan,
        contexts: &[Option<Context>],
        books: &mut Books,
        lane: u32,
        call: &CallLine,
    )
        requires stage { self.old.stage ≡ Stage.Tested }
        requires may { MayStep plan.now contexts.now lane self.old books.old call.now }
        ensures { Steps plan.now contexts.now lane call.now self.old self.new books.old
            books.new }
    {
        let items = items_of_opening(plan, call);
        let number = context_of(call);
        let Some(context) = standing(contexts, number) else {
            unreachable!()
        };
        let pool = plan.pool.as_slice();
        let start = self.settled;
        let steps = &mut self.steps[start..];
        let call = self.call as u32;
        let opening = Opening {
            context,
            number,
            pool,
            items,
            lane,
            call,
        };
        let (first, missed) = settle(books, opening, &self.table, steps);
        self.settled = start + items.len();
        self.stage = Stage::Settled {
            guess: self.table.guess(),
            first,
            missed,
            start,
        };
    }
}
