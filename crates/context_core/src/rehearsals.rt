//! The rehearsal: the steps of all lanes by a schedule.

ghost use Rattle.std.specs.Prelude.{ℕ, ◌≡◌, ◌^◌, [], None, All, get_or, ◌≤◌, ◌<◌, ◌*◌, length, map, replicate, OnOk, OnErr, IfOk};
ghost use Rattle.batch_plans.specs.Within.{IsWithinLimits};
ghost use Rattle.batch_plans.specs.Room.{room_for, lane_room};
ghost use Rattle.batch_plans.specs.AnswersText.{IsAnswered};
ghost use Rattle.context_core.specs.Core.{Core, happens, all_happen, start, core};
ghost use Rattle.context_books.specs.ContextLines.{AreOfLines, export_limits};
ghost use Rattle.context_books.specs.Asks.{batch_of, cipher_at};
ghost use Rattle.context_core.specs.Rehearsals.{rehearsed, AreAnswersOf};
ghost use Rattle.batch_plans.specs.Replies.{IsPrintable};
ghost use Rattle.context_books.specs.LaneCalls.{lane_calls};
ghost use Rattle.context_core.specs.Following.{long_ends, IsRehearsal};
ghost use Rattle.context_core.specs.Preparing.{with_answers, answers_of, IsEnded};

use crate::answerers::{Answerer, ByCaller, ByThreads};
use crate::books::Books;
use crate::lanes::{Lane, calls_of};
use crate::preparing::{books, lanes, no_answers};
use aes_gcm::Checks;
use batch_plans::{Answers, LaneAnswerList, LaneAnswers, LaneProgress, Plan};
use context_books::write_journals;
use hpke_context::Context;
use speculative_open::{Crew, OnThreads};
use std::alloc::{AllocError, Global};
use std::mem;
use std::thread::Threads;

// The lanes of a plan while they are served, and the books.
#[derive(Drop)]
struct Rehearsal {
    books: Books,
    lanes: Vec<Lane>,
}

impl Rehearsal {
    // An event: a lane does its next step. One at its end, or that isn't there, does nothing.
    fn event<C: Crew>(&mut self, crew: &C, plan: &Plan, contexts: &[Option<Context>], number: u8)
        requires ready { C.ready crew.now }
        requires within { IsWithinLimits plan.now }
        requires standing { AreOfLines plan.now.contexts contexts.now }
        requires follows { (w : Core)
            × IsRehearsal plan.now contexts.now w self.old.lanes.items self.old.books }
        ensures { (w : Core)
            → IsRehearsal plan.now contexts.now w self.old.lanes.items self.old.books
            → IsRehearsal plan.now contexts.now
            (happens (batch_of plan.now contexts.now) (cipher_at contexts.now) w number)
            self.new.lanes.items self.new.books }
    {
        let i = number as usize;
        if i >= self.lanes.len() {
            return;
        }
        let calls = calls_of(plan, i);
        let lane = &mut self.lanes[i];
        if let Some(call) = calls.get(lane.call) {
            lane.step(
                crew,
                plan,
                contexts,
                &mut self.books,
                u32::from(number),
                call,
            );
        }
    }

    // The events of a schedule.
    fn follow<C: Crew>(
        &mut self,
        crew: &C,
        plan: &Plan,
        contexts: &[Option<Context>],
        schedule: &[u8],
    )
        requires ready { C.ready crew.now }
        requires within { IsWithinLimits plan.now }
        requires standing { AreOfLines plan.now.contexts contexts.now }
        requires follows { (w : Core)
            × IsRehearsal plan.now contexts.now w self.old.lanes.items self.old.books }
        ensures { (w : Core)
            → IsRehearsal plan.now contexts.now w self.old.lanes.items self.old.books
            → IsRehearsal plan.now contexts.now (all_happen (batch_of plan.now contexts.now)
            (cipher_at contexts.now) w schedule.now) self.new.lanes.items self.new.books }
    {
        'events: for number in schedule {
            self.event(crew, plan, contexts, *number);
        }
    }

    // A lane goes on to its end: no call has more than four steps.
    fn end<C: Crew>(&mut self, crew: &C, plan: &Plan, contexts: &[Option<Context>], number: u8)
        requires ready { C.ready crew.now }
        requires within { IsWithinLimits plan.now }
        requires standing { AreOfLines plan.now.contexts contexts.now }
        requires there { number < length plan.now.lanes }
        requires follows { (w : Core)
            × IsRehearsal plan.now contexts.now w self.old.lanes.items self.old.books }
        ensures { (w : Core)
            → IsRehearsal plan.now contexts.now w self.old.lanes.items self.old.books
            → IsRehearsal plan.now contexts.now (all_happen (batch_of plan.now contexts.now)
            (cipher_at contexts.now) w
            (replicate (4 * length (lane_calls plan.now number)) number))
            self.new.lanes.items self.new.books }
    {
        let calls = calls_of(plan, number as usize).len();
        'calls: for _call in 0..calls {
            self.follow(crew, plan, contexts, &[number, number, number, number]);
        }
    }

    // Each lane goes on to its end, one after another.
    fn end_all<C: Crew>(&mut self, crew: &C, plan: &Plan, contexts: &[Option<Context>])
        requires ready { C.ready crew.now }
        requires within { IsWithinLimits plan.now }
        requires standing { AreOfLines plan.now.contexts contexts.now }
        requires follows { (w : Core)
            × IsRehearsal plan.now contexts.now w self.old.lanes.items self.old.books }
        ensures { (w : Core)
            → IsRehearsal plan.now contexts.now w self.old.lanes.items self.old.books
            → IsRehearsal plan.now contexts.now (all_happen (batch_of plan.now contexts.now)
            (cipher_at contexts.now) w (long_ends 0 plan.now.lanes))
            self.new.lanes.items self.new.books }
    {
        'lanes: for number in 0..plan.lanes.as_slice().len() {
            self.end(crew, plan, contexts, number as u8);
        }
    }

    // All events: those of the schedule, and then those of each lane up to its end.
    fn run<C: Crew>(&mut self, crew: &C, plan: &Plan, contexts: &[Option<Context>], schedule: &[u8])
        requires ready { C.ready crew.now }
        requires within { IsWithinLimits plan.now }
        requires standing { AreOfLines plan.now.contexts contexts.now }
        requires begun { IsRehearsal plan.now contexts.now
            (start (batch_of plan.now contexts.now)) self.old.lanes.items self.old.books }
        ensures { IsRehearsal plan.now contexts.now
            (core (batch_of plan.now contexts.now) (cipher_at contexts.now) schedule.now)
            self.new.lanes.items self.new.books }
    {
        self.follow(crew, plan, contexts, schedule);
        self.end_all(crew, plan, contexts);
    }
}

// Each lane gets its answers.
fn hand_out(alloc: Global, answers: &mut [LaneAnswers], lanes: &mut [Lane])
    requires count { length answers.old ≡ length lanes.old }
    requires small { All (λ answers. length answers.pool < 2 ^ 32) answers.old }
    ensures { (l : ℕ) (lane : Lane) (given : LaneAnswers) → l < length lanes.old
        → get_or lanes.new l lane
        ≡ with_answers (get_or lanes.old l lane) (get_or answers.old l given) }
{
    'lanes: for i in 0..lanes.len() {
        let given = mem::replace(&mut answers[i], no_answers(alloc));
        let lane = &mut lanes[i];
        lane.progress = LaneProgress::new(given);
    }
}

// The books and the lanes of a plan before the first step. The lanes get their answers.
fn begun<C: Crew>(
    crew: &C,
    alloc: Global,
    plan: &Plan,
    contexts: &[Option<Context>],
    answers: &mut LaneAnswerList,
) -> Result<Rehearsal, AllocError>
    requires within { IsWithinLimits plan.now }
    requires standing { AreOfLines plan.now.contexts contexts.now }
    requires room { answers.old
        ≡ map (lane_room plan.now (export_limits contexts.now)) plan.now.lanes }
    ensures begun { IfOk result (λ r. IsRehearsal plan.now contexts.now
        (start (batch_of plan.now contexts.now)) r.lanes.items r.books) }
    ensures count { OnOk result (length answers.new ≡ length answers.old) }
    ensures kept { OnErr result (answers.new ≡ answers.old) }
{
    let books = Books {
        books: books(alloc, plan, contexts)?,
        places: 0,
        checks: Checks::by(crew.permission()),
    };
    let mut lanes = lanes(alloc, plan)?;
    hand_out(alloc, answers.as_mut_slice(), lanes.as_mut_slice());
    Ok(Rehearsal { books, lanes })
}

// The answers of the lanes, which are at their ends.
fn take_back(alloc: Global, lanes: &mut [Lane], answers: &mut [LaneAnswers])
    requires count { length answers.old ≡ length lanes.old }
    requires ended { All IsEnded lanes.old }
    ensures answers { (l : ℕ) (lane : Lane) (given : LaneAnswers) → l < length lanes.old
        → get_or answers.new l given ≡ answers_of (get_or lanes.old l lane).progress }
    ensures printable { All IsPrintable answers.new }
{
    'lanes: for i in 0..lanes.len() {
        let lane = &mut lanes[i];
        let progress = mem::replace(&mut lane.progress, LaneProgress::new(no_answers(alloc)));
        answers[i] = progress.finish();
    }
}

// The steps of all lanes by the schedule, and then their answers.
fn rehearse_with<C: Crew, A: Answerer>(
    crew: &C,
    answerer: &A,
    alloc: Global,
    plan: &Plan,
    contexts: &[Option<Context>],
    schedule: &[u8],
    answers: &mut Answers,
) -> Result<(), AllocError>
    requires crew { C.ready crew.now }
    requires answerer { A.ready answerer.now }
    requires within { IsWithinLimits plan.now }
    requires standing { AreOfLines plan.now.contexts contexts.now }
    requires room { answers.old ≡ room_for plan.now answers.old.keys answers.old.contexts
        (export_limits contexts.now) }
    requires replies { (length answers.old.keys ≡ length plan.now.keys)
        × (length answers.old.contexts ≡ length plan.now.contexts) }
    ensures answered { OnOk result (AreAnswersOf (rehearsed plan.now contexts.now schedule.now)
        answers.new) }
    ensures set_up { OnOk result ((answers.new.keys ≡ answers.old.keys)
        × (answers.new.contexts ≡ answers.old.contexts)) }
    ensures printable { OnOk result (IsAnswered plan.now answers.new) }
    ensures kept { OnErr result (answers.new ≡ answers.old) }
{
    let mut rehearsal = begun(crew, alloc, plan, contexts, &mut answers.lanes)?;
    rehearsal.run(crew, plan, contexts, schedule);
    answerer.answer_lanes(plan, contexts, rehearsal.lanes.as_mut_slice());
    take_back(
        alloc,
        rehearsal.lanes.as_mut_slice(),
        answers.lanes.as_mut_slice(),
    );
    write_journals(&rehearsal.books.books, answers.journals.as_mut_slice());
    Ok(())
}

/// Serves the lanes of a plan on one thread but for the tests of tags, which are the crew's, and fills
/// the answers that were made for the plan and these contexts.
///
/// Each number of the schedule is that of a lane, which does its next step; one at its end, or that
/// isn't there, does nothing. Then lane 0 goes on to its end, then lane 1, and so on. The steps of a
/// call are those of context_core: Finish for a call that is refused and for an export; Draw and
/// Finish for a seal; Guess, Check, Commit and Finish for an opening. A Finish encrypts and decrypts
/// nothing: the lanes are answered when all calls are done, one after another.
///
/// All memory is taken before the first step.
pub fn rehearse_by<C: Crew>(
    crew: &C,
    alloc: Global,
    plan: &Plan,
    contexts: &[Option<Context>],
    schedule: &[u8],
    answers: &mut Answers,
) -> Result<(), AllocError>
    requires ready { C.ready crew.now }
    requires within { IsWithinLimits plan.now }
    requires standing { AreOfLines plan.now.contexts contexts.now }
    requires room { answers.old ≡ room_for plan.now answers.old.keys answers.old.contexts
        (export_limits contexts.now) }
    requires replies { (length answers.old.keys ≡ length plan.now.keys)
        × (length answers.old.contexts ≡ length plan.now.contexts) }
    ensures answered { OnOk result (AreAnswersOf (rehearsed plan.now contexts.now schedule.now)
        answers.new) }
    ensures set_up { OnOk result ((answers.new.keys ≡ answers.old.keys)
        × (answers.new.contexts ≡ answers.old.contexts)) }
    ensures printable { OnOk result (IsAnswered plan.now answers.new) }
    ensures kept { OnErr result (answers.new ≡ answers.old) }
{
    rehearse_with(crew, &ByCaller, alloc, plan, contexts, schedule, answers)
}

/// Serves the lanes of a plan as [`rehearse_by`] does. The tags of a large opening are tested ahead by
/// several threads, which are joined in the same step. Up to four threads answer the lanes, each some
/// of them, where there is much to write.
pub fn rehearse<R: Threads + Sync>(
    rt: &R,
    alloc: Global,
    plan: &Plan,
    contexts: &[Option<Context>],
    schedule: &[u8],
    answers: &mut Answers,
) -> Result<(), AllocError>
    requires within { IsWithinLimits plan.now }
    requires standing { AreOfLines plan.now.contexts contexts.now }
    requires room { answers.old ≡ room_for plan.now answers.old.keys answers.old.contexts
        (export_limits contexts.now) }
    requires replies { (length answers.old.keys ≡ length plan.now.keys)
        × (length answers.old.contexts ≡ length plan.now.contexts) }
    ensures answered { OnOk result (AreAnswersOf (rehearsed plan.now contexts.now schedule.now)
        answers.new) }
    ensures set_up { OnOk result ((answers.new.keys ≡ answers.old.keys)
        × (answers.new.contexts ≡ answers.old.contexts)) }
    ensures printable { OnOk result (IsAnswered plan.now answers.new) }
    ensures kept { OnErr result (answers.new ≡ answers.old) }
{
    let answerer = ByThreads::new(rt, answers.lanes.as_slice());
    rehearse_with(
        &OnThreads::new(rt),
        &answerer,
        alloc,
        plan,
        contexts,
        schedule,
        answers,
    )
}
