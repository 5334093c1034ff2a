//! A context that threads share: its turns and its close.

ghost use Rattle.std.specs.Prelude.{◌≡◌, ◌+◌, ◌<◌, ◌≤◌, ◌^◌, [], All, IfOk, length, sum};
ghost use Rattle.call_places.specs.Entries.{stamps_of};
ghost use Rattle.hpke_context.specs.Calls.{CanSeal, CanOpen};
ghost use Rattle.turn_lock.specs.Passes.{fresh_from, AllOf, IsShown, NoOthers};
ghost use Rattle.call_places.specs.Spans.{ItemIsInPool};
ghost use Rattle.context_books.specs.Openings.{opening_steps, opening_misses, IsTableFor};
ghost use Rattle.stamp_counter.specs.Stamps.{IsNote};
ghost use Rattle.stamp_counter.specs.Turns.{MayCall};
ghost use Rattle.shared_context.specs.Calls.{HasDrawn, HasPeeked, HasCommitted};

use crate::stamped::{Opening, StampedBook};
use aes_gcm::Checks;
use call_places::{Item, Place, Step};
use context_books::{Book, Draw};
use hpke_context::Context;
use speculative_open::GuessTable;
use stamp_counter::{StampCounter, StampSeat};
use std::alloc::{AllocError as OutOfMemory, Global};
use std::marker::Model;
use std::sync::Wait;
use turn_lock::{Pass, PassList, TurnLock};

/// A context that threads share, each with a [`Pass`] of its own. Contracts see the context, which
/// lock its book is under, and how many passes there are. The lock's terms are LIMIT, a quota for
/// each pass, and the counter that stamps come from.
#[derive(Drop)]
pub struct SharedContext {
    context: Context,
    lock: TurnLock<StampedBook>,
}

impl Model for SharedContext {
    ghost use Rattle.std.specs.Prelude.{◌≡◌};
    ghost use Rattle.shared_context.specs.Calls.{SharedView};

    ghost Value = { SharedView };

    ghost view = { λ s. record {
      context = s.context;
      lock = s.lock.lock;
      passes = s.lock.passes;
    } };

    ghost invariant = { λ s. s.lock.lock.terms.limit ≡ s.context.limit };
}

impl SharedContext {
    /// A context with a pass for each quota: pass l may add `quotas[l]` entries. The stamps of all
    /// entries are drawn from `seat`.
    ///
    /// All the memory that the context ever takes is taken here. Where there is none, the context
    /// and the seat are dropped.
    pub fn new(
        alloc: Global,
        context: Context,
        quotas: &[u32],
        seat: StampSeat,
    ) -> Result<(SharedContext, PassList), OutOfMemory>
        requires count { (0 < length quotas.now) × (length quotas.now < 65536) }
        requires sum { sum quotas.now ≤ 65536 }
        requires seat { (seat.drawn ≡ []) × (seat.left ≡ sum quotas.now) }
        ensures context { IfOk result (λ r. r.0.context ≡ context) }
        ensures terms { IfOk result (λ r. r.0.lock.terms
            ≡ record { limit = context.limit; quotas = quotas.now; counter = seat.counter }) }
        ensures count { IfOk result (λ r. (r.0.passes ≡ length quotas.now)
            × (r.1.made ≡ length quotas.now)) }
        ensures passes { IfOk result
            (λ r. r.1.passes ≡ fresh_from r.0.lock 0 (length quotas.now)) }
    {
        let book = Book::new(alloc, context.limit(), quotas)?;
        let stamped = StampedBook::new(book, seat);
        let (lock, passes) = TurnLock::new(alloc, stamped, quotas.len() as u32)?;
        Ok((SharedContext { context, lock }, passes))
    }

    /// The context, which doesn't change.
    pub fn context(&self) -> &Context
        ensures context { result.now ≡ self.now.context }
        ensures limit { self.now.lock.terms.limit ≡ self.now.context.limit }
    {
        &self.context
    }

    /// Takes a turn and draws the number of a seal, for [`finish_seal`](Self::finish_seal). It isn't
    /// given the text, so nothing is encrypted while others wait.
    ///
    /// The step stands at item 0 of the call, also where all numbers are used. Its stamp comes after
    /// all that the lane's `seat` knew; the seat that comes back knows of it.
    pub fn draw<R: Wait>(
        &self,
        rt: &R,
        pass: Pass,
        counter: &StampCounter,
        seat: StampSeat,
        call: u32,
    ) -> (Draw, Pass, StampSeat)
        requires may { MayCall self.now.lock pass call 1 }
        requires seals { CanSeal self.now.context }
        requires counter { self.now.lock.terms.counter ≡ counter.now.id }
        requires seat { IsNote counter.now.id seat }
        ensures { HasDrawn pass result.1 seat result.2 call result.0 }
    {
        let place = Place {
            lane: pass.number(),
            call,
            item: 0,
        };
        let mut held = self.lock.enter(rt, pass);
        let (drawn, seat) = held.value().draw(counter, seat, place);
        (drawn, self.lock.leave(held), seat)
    }

    /// Takes a turn and tells the number that is due. Other passes may raise it from then on.
    pub fn peek<R: Wait>(&self, rt: &R, pass: Pass) -> (u64, Pass)
        requires { (pass.lock ≡ self.now.lock) × (pass.turns < 4294967295) }
        ensures { HasPeeked pass result.1 result.0 }
    {
        let mut held = self.lock.enter(rt, pass);
        let number = held.value().seq();
        (number, self.lock.leave(held))
    }

    /// Takes a turn and opens a call's items one after another, but for the decryption, which
    /// [`finish_open`](Self::finish_open) does. The answer has the number that was due before the
    /// first item, and how many items the table had no verdict for; their tags are checked in the
    /// turn.
    ///
    /// All the items' steps stand side by side, and `steps` gets the same. Their stamps follow one
    /// another and come after all that the lane's `seat` knew; the seat that comes back knows of
    /// them.
    pub fn commit<R: Wait>(
        &self,
        rt: &R,
        pass: Pass,
        counter: &StampCounter,
        seat: StampSeat,
        call: u32,
        pool: &[u8],
        items: &[Item],
        table: &GuessTable,
        steps: &mut [Step],
        checks: &mut Checks,
    ) -> (u64, u32, Pass, StampSeat)
        requires may { MayCall self.now.lock pass call (length items.now) }
        requires opens { CanOpen self.now.context }
        requires counter { self.now.lock.terms.counter ≡ counter.now.id }
        requires seat { IsNote counter.now.id seat }
        requires spans { All (ItemIsInPool (length pool.now)) items.now }
        requires table { IsTableFor self.now.context pool.now items.now table.now }
        requires steps { length steps.old ≡ length items.now }
        requires checks { checks.old + length items.now < 2 ^ 64 }
        ensures committed { HasCommitted pass result.2 seat result.3 call steps.new result.0 }
        ensures steps { steps.new ≡ opening_steps self.now.context result.0 pool.now items.now }
        ensures missed { result.1
            ≡ opening_misses self.now.context result.0 pool.now items.now table.now.guess }
        ensures checks { (checks.old ≤ checks.new) × (checks.new ≤ checks.old + result.1) }
    {
        let lane = pass.number();
        let opening = Opening {
            context: &self.context,
            pool,
            items,
            lane,
            call,
            table,
        };
        let mut held = self.lock.enter(rt, pass);
        let value = held.value();
        let number = value.seq();
        let (missed, seat) = value.settle(counter, seat, opening, steps, checks);
        (number, missed, self.lock.leave(held), seat)
    }

    /// The context, its book and the seat, once every pass has come back. It waits for nobody.
    pub fn close(self, passes: PassList) -> (Context, Book, StampSeat)
        requires lock { AllOf self.lock passes.passes }
        requires all { length passes.passes ≡ self.passes }
        ensures context { result.0 ≡ self.context }
        ensures terms { (result.1.limit ≡ self.lock.terms.limit)
            × (result.1.quotas ≡ self.lock.terms.quotas) }
        ensures shown { All (IsShown result.1.entries) passes.passes }
        ensures others { NoOthers result.1.entries passes.passes }
        ensures counter { result.2.counter ≡ self.lock.terms.counter }
        ensures stamps { result.2.drawn ≡ stamps_of result.1.entries }
        ensures left { result.2.left + length result.1.entries ≡ sum result.1.quotas }
    {
        let SharedContext { context, lock } = self;
        let (book, seat) = lock.close(passes).into_parts();
        (context, book, seat)
    }
}
