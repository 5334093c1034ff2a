//! The calls of a lane.

ghost use Rattle.std.specs.Prelude.{ℕ, ◌≡◌, ◌+◌, ◌<◌, ◌≤◌, ◌^◌, [], ◌∷◌, All, MatchOption, Some, None, length, map, take, sum_by};
ghost use Rattle.call_places.specs.Spans.{IsInPool, ItemIsInPool, span_bytes};
ghost use Rattle.hpke_context.specs.Answers.{run};
ghost use Rattle.hpke_context.specs.Contexts.{cipher_of, export_limit, exported_by};
ghost use Rattle.hpke_context.specs.Calls.{CanSeal, CanOpen, HasCipher};
ghost use Rattle.context_books.specs.Openings.{IsTableFor, opening_steps, opening_misses, unseals};
ghost use Rattle.batch_plans.specs.Room.{opened_room};
ghost use Rattle.batch_plans.specs.Lines.{exported_line};
ghost use Rattle.context_books.specs.Runs.{answer_line};
ghost use Rattle.context_books.specs.Writing.{PutsReplies};
ghost use Rattle.context_books.specs.Standing.{refusal_on};
ghost use Rattle.shared_context.specs.Calls.{MayCall, HasCommitted};
ghost use Rattle.shared_context.specs.Stamped.{IsNote};
ghost use Rattle.context_books.specs.LaneCalls.{opening_items, IsOpening};
ghost use Rattle.lane_workers.specs.Turns.{shared_at, view_of, with_table, with_progress, CanTurn, Draws, Guesses, Commits, Opens};
ghost use Rattle.lane_workers.specs.Readings.{Reading, MayAnswerAs, MayServeAs, IsOneOn};

use crate::works::{LaneWork, LastOpening};
use aes_gcm::Checks;
use batch_io::{Gate, Point};
use batch_plans::{Batch, CallLine, CallRefusal, Plan, context_of, refusal_by};
use call_places::{Item, Span, Step};
use context_books::{Draw, export, finish_opening, finish_seal, items_of_opening, refuse};
use shared_context::SharedContext;
use speculative_open::GuessTable;
use stamp_counter::{StampCounter, StampSeat};
use std::sync::Wait;
use std::thread::Threads;
use turn_lock::Pass;

/// What all lanes share while they are served.
#[derive(Drop)]
pub(crate) struct Service<'a, R, G> {
    pub(crate) rt: &'a R,
    pub(crate) plan: &'a Plan,
    pub(crate) contexts: &'a [Option<SharedContext>],
    pub(crate) counter: Option<&'a StampCounter>,
    pub(crate) gate: &'a G,
}

// Why a call is refused on a context that may not stand.
pub(crate) fn refusal_of(context: Option<&SharedContext>, call: &CallLine) -> Option<CallRefusal>
    ensures { result ≡ refusal_on (view_of context.entry) call.now }
{
    let Some(shared) = context else {
        return Some(CallRefusal::NoContext);
    };
    let context = shared.context();
    refusal_by(
        context.role(),
        context.suite().aead,
        context.export_limit() as u32,
        call,
    )
}

// The number that is due after these steps, where `first` was due before them.
fn due_after(first: u64, steps: &[Step]) -> u64 {
    let opened = steps.iter().filter(|step| step.advances()).count();
    first.saturating_add(opened as u64)
}

// The items of a call that a turn opens, with the verdicts on their tags.
#[derive(Drop)]
struct Opening<'a> {
    shared: &'a SharedContext,
    counter: &'a StampCounter,
    call: u32,
    pool: &'a [u8],
    items: &'a [Item],
    table: &'a GuessTable,
}

// Commits items, whose steps go to the front of `steps`.
fn commit_front<R: Wait>(
    rt: &R,
    opening: Opening<'_>,
    pass: Pass,
    seat: StampSeat,
    steps: &mut [Step],
    checks: &mut Checks,
) -> (u64, u32, Pass, StampSeat)
    requires may { MayCall opening.shared.now.lock pass opening.call (length opening.items.now) }
    requires opens { CanOpen opening.shared.now.context }
    requires counter { opening.shared.now.lock.terms.counter ≡ opening.counter.now.id }
    requires seat { IsNote opening.counter.now.id seat }
    requires spans { All (ItemIsInPool (length opening.pool.now)) opening.items.now }
    requires table { IsTableFor opening.shared.now.context opening.pool.now opening.items.now
        opening.table.now }
    requires steps { length opening.items.now ≤ length steps.old }
    requires checks { checks.old + length opening.items.now < 2 ^ 64 }
    ensures committed { HasCommitted pass result.2 seat result.3 opening.entry.call
        (opening_steps opening.entry.shared.now.context result.0 opening.entry.pool.now
        opening.entry.items.now) result.0 }
    ensures steps { take (length opening.entry.items.now) steps.new
        ≡ opening_steps opening.entry.shared.now.context result.0 opening.entry.pool.now
        opening.entry.items.now }
    ensures room { length steps.new ≡ length steps.old }
    ensures missed { result.1 ≡ opening_misses opening.entry.shared.now.context result.0
        opening.entry.pool.now opening.entry.items.now opening.entry.table.now.guess }
    ensures checks { checks.new ≤ checks.old + result.1 }
{
    let Opening {
        shared,
        counter,
        call,
        pool,
        items,
        table,
    } = opening;
    let front = &mut steps[..items.len()];
    shared.commit(
        rt, pass, counter, seat, call, pool, items, table, front, checks,
    )
}

// Puts a value into the slot that it was taken from.
pub(crate) fn put<T: Drop>(slot: &mut Option<T>, value: T)
    ensures { slot.new ≡ Some value }
{
    *slot = Some(value);
}

impl<R: Threads + Wait + Sync, G: Gate> Service<'_, R, G> {
    // The context of this number, where there is one and it stands.
    pub(crate) fn standing(&self, number: u32) -> Option<&SharedContext>
        ensures { MatchOption result (shared_at self.now.contexts.now number ≡ None)
            (λ shared. shared_at self.now.contexts.now number ≡ Some shared.now) }
    {
        self.contexts.get(number as usize)?.as_ref()
    }

    // Draws the number of a seal.
    fn draw(&self, work: &mut LaneWork, shared: &SharedContext, number: u32, call: u32) -> Draw
        requires turn { CanTurn work.old shared.now self.now.counter number call 1 }
        requires seals { CanSeal shared.now.context }
        ensures { Draws work.old work.new number call result }
    {
        let i = number as usize;
        let counter = self.counter.unwrap();
        let pass = work.passes[i].take().unwrap();
        let seat = work.seat.take().unwrap();
        let (drawn, pass, seat) = shared.draw(self.rt, pass, counter, seat, call);
        put(&mut work.passes[i], pass);
        put(&mut work.seat, seat);
        self.gate.reached(work.lane, call, Point::Drawn);
        drawn
    }

    // Takes a turn to look at the number that is due.
    fn look(&self, work: &mut LaneWork, shared: &SharedContext, number: u32) -> u64
        requires turn { (call : ℕ) × CanTurn work.old shared.now self.now.counter number call 0 }
        ensures { (line : CallLine) → Guesses work.old work.new line number result }
    {
        let i = number as usize;
        let pass = work.passes[i].take().unwrap();
        let (due, pass) = shared.peek(self.rt, pass);
        put(&mut work.passes[i], pass);
        due
    }

    // The number that the items of an opening are tested around, ahead of its turn. An opening of several
    // messages keeps it, so it is one that was due. One of a single message may guess any number: where
    // another one is due in its turn, the commit tests the tag again.
    fn guess(
        &self,
        work: &mut LaneWork,
        shared: &SharedContext,
        number: u32,
        call: u32,
        line: &CallLine,
    ) -> u64
        requires turn { CanTurn work.old shared.now self.now.counter number call 0 }
        ensures { Guesses work.old work.new line.now number result }
    {
        let guess = match work.guess_by_last(line) {
            Some(due) => due,
            None => self.look(work, shared, number),
        };
        self.gate.reached(work.lane, call, Point::Guessed);
        guess
    }

    // Tests the tags of an opening around the guess.
    fn test(&self, work: &mut LaneWork, shared: &SharedContext, guess: u64, items: &[Item])
        requires cipher { HasCipher shared.now.context }
        requires room { length items.now ≤ work.old.table.room }
        requires spans { All (ItemIsInPool (length self.now.plan.now.pool)) items.now }
        ensures table { IsTableFor shared.now.context self.now.plan.now.pool items.now work.new.table }
        ensures guess { work.new.table.guess ≡ guess }
        ensures room { work.new.table.room ≡ work.old.table.room }
        ensures same { work.new ≡ with_table work.old work.new.table }
    {
        let context = shared.context();
        let key = context.cipher().unwrap();
        let base_nonce = context.base_nonce().unwrap();
        let pool = self.plan.pool.as_slice();
        work.table.fill(
            self.rt,
            key,
            base_nonce,
            guess,
            context.limit(),
            pool,
            items,
        );
    }

    // Gives the items of an opening their places, and tells which number was due before them and how
    // many of theirs the guess missed.
    fn commit(
        &self,
        work: &mut LaneWork,
        shared: &SharedContext,
        number: u32,
        call: u32,
        items: &[Item],
    ) -> (u64, u32)
        requires turn { CanTurn work.old shared.now self.now.counter number call
            (length items.now) }
        requires opens { CanOpen shared.now.context }
        requires spans { All (ItemIsInPool (length self.now.plan.now.pool)) items.now }
        requires table { IsTableFor shared.now.context self.now.plan.now.pool items.now
            work.old.table }
        requires room { length items.now ≤ length work.old.steps.items }
        requires checks { work.old.checks + length items.now < 2 ^ 64 }
        ensures { Commits work.old work.new shared.now.context number call
            self.now.plan.now.pool items.now result.0 result.1 }
    {
        let i = number as usize;
        let counter = self.counter.unwrap();
        let pass = work.passes[i].take().unwrap();
        let seat = work.seat.take().unwrap();
        let pool = self.plan.pool.as_slice();
        let opening = Opening {
            shared,
            counter,
            call,
            pool,
            items,
            table: &work.table,
        };
        let steps = work.steps.as_mut_slice();
        let (first, missed, pass, seat) = commit_front(
            self.rt,
            opening,
            pass,
            seat,
            steps,
            &mut work.checks,
        );
        put(&mut work.passes[i], pass);
        put(&mut work.seat, seat);
        work.last_opening = Some(LastOpening {
            context: number,
            due: due_after(first, &work.steps[..items.len()]),
        });
        (first, missed)
    }

    // Seals a text at the number that is due.
    fn seal(&self, work: &mut LaneWork, shared: &SharedContext, number: u32, call: u32, item: &Item)
        requires { (r : Reading) × MayServeAs r self.now.plan.now self.now.contexts.now
            self.now.counter call (CallLine.Seal number item.now) shared.now work.old }
        ensures { (r : Reading) → MayServeAs r self.now.plan.now self.now.contexts.now
            self.now.counter call (CallLine.Seal number item.now) shared.now work.old
            → IsOneOn r self.now.contexts.now self.now.counter call
            (CallLine.Seal number item.now) work.old work.new }
    {
        let drawn = self.draw(work, shared, number, call);
        let pool = self.plan.pool.as_slice();
        let (aad, text) = (item.aad.of(pool), item.text.of(pool));
        finish_seal(&mut work.progress, shared.context(), drawn, aad, text);
    }

    // Opens the items of a call, and tells what it guessed.
    fn open(&self, work: &mut LaneWork, shared: &SharedContext, call: u32, line: &CallLine) -> Batch
        requires may { (r : Reading) × MayServeAs r self.now.plan.now self.now.contexts.now
            self.now.counter call line.now shared.now work.old }
        requires opening { IsOpening line.now }
        ensures { Opens self.now.plan.now shared.now work.old work.new call line.now result.guess
            result.missed }
    {
        let items = items_of_opening(self.plan, line);
        let number = context_of(line);
        let guess = self.guess(work, shared, number, call, line);
        self.test(work, shared, guess, items);
        let (first, missed) = self.commit(work, shared, number, call, items);
        self.finish(work, shared, items, first);
        Batch { guess, missed }
    }

    // Writes the replies to items whose steps are settled.
    fn finish(&self, work: &mut LaneWork, shared: &SharedContext, items: &[Item], first: u64)
        requires cipher { HasCipher shared.now.context }
        requires spans { All (ItemIsInPool (length self.now.plan.now.pool)) items.now }
        requires few { length items.now ≤ length work.old.steps.items }
        requires steps { take (length items.now) work.old.steps.items
            ≡ opening_steps shared.now.context first self.now.plan.now.pool items.now }
        requires room { work.old.progress.taken + sum_by opened_room items.now
            ≤ length work.old.progress.pool }
        requires left { length items.now ≤ work.old.progress.left }
        ensures puts { PutsReplies work.old.progress work.new.progress
            (sum_by opened_room items.now) (map answer_line (run (cipher_of shared.now.context) first
            (unseals self.now.plan.now.pool items.now))) }
        ensures same { work.new ≡ with_progress work.old work.new.progress }
    {
        let steps = &work.steps[..items.len()];
        let pool = self.plan.pool.as_slice();
        finish_opening(
            &mut work.progress,
            shared.context(),
            pool,
            items,
            first,
            steps,
        );
    }

    // Exports a secret.
    fn export(&self, work: &mut LaneWork, shared: &SharedContext, exporter: Span, size: u32)
        requires size { size ≤ export_limit shared.now.context }
        requires span { IsInPool (length self.now.plan.now.pool) exporter }
        requires room { work.old.progress.taken + size ≤ length work.old.progress.pool }
        requires left { 0 < work.old.progress.left }
        ensures puts { PutsReplies work.old.progress work.new.progress size
            (exported_line (exported_by shared.now.context
            (span_bytes self.now.plan.now.pool exporter) size) ∷ []) }
        ensures same { work.new ≡ with_progress work.old work.new.progress }
    {
        let exporter_context = exporter.of(self.plan.pool.as_slice());
        export(&mut work.progress, shared.context(), exporter_context, size);
    }

    // A call that is served.
    fn serve_call(&self, work: &mut LaneWork, shared: &SharedContext, call: u32, line: &CallLine)
        requires { (r : Reading) × MayServeAs r self.now.plan.now self.now.contexts.now
            self.now.counter call line.now shared.now work.old }
        ensures { (r : Reading) → MayServeAs r self.now.plan.now self.now.contexts.now
            self.now.counter call line.now shared.now work.old
            → IsOneOn r self.now.contexts.now self.now.counter call line.now work.old work.new }
    {
        match *line {
            CallLine::Seal { context, item } => self.seal(work, shared, context, call, &item),
            CallLine::Unseal { .. } => {
                let _ = self.open(work, shared, call, line);
            }
            CallLine::UnsealAll { .. } => {
                let batch = self.open(work, shared, call, line);
                work.progress.put_batch(batch);
            }
            CallLine::Export { exporter, size, .. } => self.export(work, shared, exporter, size),
            CallLine::Add { .. } | CallLine::Retire { .. } => unreachable!(),
        }
    }

    // A call, served or refused.
    pub(crate) fn reply(&self, work: &mut LaneWork, call: u32, line: &CallLine)
        requires { (r : Reading) × MayAnswerAs r self.now.plan.now self.now.contexts.now
            self.now.counter call line.now work.old }
        ensures { (r : Reading) → MayAnswerAs r self.now.plan.now self.now.contexts.now
            self.now.counter call line.now work.old
            → IsOneOn r self.now.contexts.now self.now.counter call line.now work.old work.new }
    {
        let context = self.standing(context_of(line));
        if let Some(refusal) = refusal_of(context, line) {
            refuse(&mut work.progress, refusal);
            return;
        }
        let Some(shared) = context else {
            unreachable!()
        };
        self.serve_call(work, shared, call, line);
    }
}
