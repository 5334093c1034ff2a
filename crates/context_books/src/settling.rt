//! Opening the items of a call in a book, one after another.

ghost use Rattle.std.specs.Prelude.{◌≡◌, ◌↔◌, ◌+◌, ◌-◌, ◌<◌, ◌≤◌, ◌^◌, ◌++◌, All, IfSome, IsTrue, cond, is_some, length, slice_index};
ghost use Rattle.call_places.specs.Entries.{own, seq_of, StampsBelow};
ghost use Rattle.hpke_context.specs.Calls.{HasCipher};
ghost use Rattle.context_books.specs.Entries.{entries_from};
ghost use Rattle.call_places.specs.Spans.{ItemIsInPool};
ghost use Rattle.call_places.specs.Messages.{sealed_message};
ghost use Rattle.context_books.specs.Books.{SameTerms};
ghost use Rattle.context_books.specs.Openings.{opening_steps, opening_misses, OpensIn, IsTableFor};

use crate::book::Book;
use aes_gcm::Checks;
use call_places::{Item, Place, Step};
use hpke_context::Context;
use speculative_open::GuessTable;

impl Book {
    /// Opens a call's items one after another, ContextR.Open of RFC 9180, 5.2, but for the
    /// decryption, and writes a step down for each: item i at the place (lane, call, i), with the
    /// stamp `first_stamp` + i. `steps` gets the same steps.
    ///
    /// A verdict of the table at the number that is due is taken as it stands. The answer is the
    /// number of items for which the table has none there; their tags are checked now.
    pub fn settle(
        &mut self,
        context: &Context,
        pool: &[u8],
        items: &[Item],
        lane: u32,
        call: u32,
        first_stamp: u64,
        table: &GuessTable,
        steps: &mut [Step],
        checks: &mut Checks,
    ) -> u32
        requires cipher { HasCipher context.now × (context.now.limit ≡ self.old.limit) }
        requires spans { All (ItemIsInPool (length pool.now)) items.now }
        requires table { IsTableFor context.now pool.now items.now table.now }
        requires steps { length steps.old ≡ length items.now }
        requires lane { lane < length self.old.quotas }
        requires room { length (own lane self.old.entries) + length items.now
            ≤ slice_index self.old.quotas lane }
        requires stamps { StampsBelow first_stamp self.old.entries }
        requires last { first_stamp + length items.now < 2 ^ 64 }
        requires checks { checks.old + length items.now < 2 ^ 64 }
        ensures steps { steps.new
            ≡ opening_steps context.now (seq_of self.old.entries) pool.now items.now }
        ensures added { self.new.entries
            ≡ self.old.entries ++ entries_from lane call 0 first_stamp steps.new }
        ensures missed { result ≡ opening_misses context.now (seq_of self.old.entries) pool.now
            items.now table.now.guess }
        ensures checks { (checks.old ≤ checks.new) × (checks.new ≤ checks.old + result) }
        ensures terms { SameTerms self.old self.new }
    {
        self.a_lanes_room_is_the_books(lane, items.len());
        let mut missed = 0;
        for i in 0..items.len() {
            let place = Place {
                lane,
                call,
                item: i as u32,
            };
            let known = table.look(i, self.seq());
            if known.is_none() {
                missed += 1;
            }
            let holds = verdict(context, self.seq(), pool, items[i], known, checks);
            steps[i] = self.open(place, first_stamp + i as u64, holds);
        }
        missed
    }
}

// Whether an item's tag holds at this number: what is known of it, or else what a check tells.
fn verdict(
    context: &Context,
    number: u64,
    pool: &[u8],
    item: Item,
    known: Option<bool>,
    checks: &mut Checks,
) -> bool
    requires cipher { HasCipher context.now }
    requires span { ItemIsInPool (length pool.now) item }
    requires known { IfSome known
        (λ v. IsTrue v ↔ OpensIn context.now number (sealed_message pool.now item)) }
    requires checks { checks.old < 2 ^ 64 - 1 }
    ensures holds { IsTrue result ↔ OpensIn context.now number (sealed_message pool.now item) }
    ensures checks { checks.new ≡ checks.old + cond (is_some known) 0 1 }
{
    if let Some(holds) = known {
        return holds;
    }
    context.holds_at(number, item.aad.of(pool), item.text.of(pool), checks)
}
