//! The value under a context's lock: its book, with the seat that its stamps are drawn from.

ghost use Rattle.std.specs.Prelude.{ℕ, ◌≡◌, ◌↔◌, ◌+◌, ◌<◌, ◌≤◌, ◌^◌, ◌++◌, ◌∷◌, [], All, length, slice_index, sum};
ghost use Rattle.call_places.specs.Entries.{own, seq_of};
ghost use Rattle.hpke_context.specs.Calls.{HasCipher};
ghost use Rattle.context_books.specs.Entries.{entry, entries_from};
ghost use Rattle.call_places.specs.Spans.{ItemIsInPool};
ghost use Rattle.context_books.specs.Books.{drawn_step};
ghost use Rattle.context_books.specs.Openings.{opening_steps, opening_misses, IsTableFor};
ghost use Rattle.stamp_counter.specs.Stamps.{IsStamped, IsNote, ComesAfter};
ghost use Rattle.shared_context.specs.Stamped.{terms_of};

use aes_gcm::Checks;
use call_places::{Entry, Item, Listed, Place, Step};
use context_books::{Book, Draw};
use hpke_context::Context;
use speculative_open::GuessTable;
use stamp_counter::{StampCounter, StampSeat, draw_stamps};
use std::marker::Model;

/// A book with the seat that its stamps are drawn from. Contracts see both: the seat has drawn the
/// stamps of the entries, in their order, and may draw as many more as the quotas leave.
#[derive(Drop)]
pub struct StampedBook {
    book: Book,
    seat: StampSeat,
}

impl Model for StampedBook {
    ghost use Rattle.stamp_counter.specs.Stamps.{IsStamped};
    ghost use Rattle.shared_context.specs.Stamped.{StampedView};

    ghost Value = { StampedView };

    ghost view = { λ s. record { book = s.book; seat = s.seat } };

    ghost invariant = { λ s. IsStamped s.book.quotas s.book.entries s.seat };
}

impl Listed for StampedBook {
    ghost use Rattle.shared_context.specs.Stamped.{terms_of};

    ghost entries = { λ s. s.book.entries };

    ghost terms = { λ s. terms_of s };

    fn last_entry(&self) -> Option<Entry> {
        self.book.last_entry()
    }
}

/// The items of a call that a turn opens, with the verdicts on their tags.
#[derive(Drop)]
pub(crate) struct Opening<'a> {
    pub(crate) context: &'a Context,
    pub(crate) pool: &'a [u8],
    pub(crate) items: &'a [Item],
    pub(crate) lane: u32,
    pub(crate) call: u32,
    pub(crate) table: &'a GuessTable,
}

impl StampedBook {
    pub(crate) fn new(book: Book, seat: StampSeat) -> StampedBook
        requires empty { (book.entries ≡ []) × (seat.drawn ≡ []) × (seat.left ≡ sum book.quotas) }
        ensures { result ≡ record { book = book; seat = seat } }
    {
        StampedBook { book, seat }
    }

    pub(crate) fn into_parts(self) -> (Book, StampSeat)
        ensures parts { (result.0 ≡ self.book) × (result.1 ≡ self.seat) }
        ensures stamped { IsStamped result.0.quotas result.0.entries result.1 }
    {
        let StampedBook { book, seat } = self;
        (book, seat)
    }

    pub(crate) fn seq(&self) -> u64
        ensures seq { result ≡ seq_of self.now.book.entries }
        ensures most { result ≤ self.now.book.limit }
    {
        self.book.seq()
    }

    // Draws a number, and a stamp for its entry.
    pub(crate) fn draw(
        &mut self,
        counter: &StampCounter,
        seat: StampSeat,
        place: Place,
    ) -> (Draw, StampSeat)
        requires lane { place.lane < length self.old.book.quotas }
        requires room { length (own place.lane self.old.book.entries)
            < slice_index self.old.book.quotas place.lane }
        requires counter { self.old.seat.counter ≡ counter.now.id }
        requires seat { IsNote counter.now.id seat }
        ensures terms { terms_of self.new ≡ terms_of self.old }
        ensures limit { (result.0 ≡ Draw.Limit)
            ↔ (seq_of self.old.book.entries ≡ self.old.book.limit) }
        ensures number { (n : ℕ) → result.0 ≡ Draw.Number n
            → (n ≡ seq_of self.old.book.entries) × (n < self.old.book.limit) }
        ensures added { (stamp : ℕ)
            × ComesAfter counter.now.id seat result.1 self.old.book.entries stamp 1
            × (self.new.book.entries
            ≡ self.old.book.entries ++ entry place stamp (drawn_step result.0) ∷ []) }
    {
        self.book.a_lanes_room_is_the_books(place.lane, 1);
        let (stamp, seat) = draw_stamps(counter, &mut self.seat, seat, 1);
        (self.book.draw(place, stamp), seat)
    }

    // Opens a call's items, with stamps for their entries that follow one another.
    pub(crate) fn settle(
        &mut self,
        counter: &StampCounter,
        seat: StampSeat,
        opening: Opening<'_>,
        steps: &mut [Step],
        checks: &mut Checks,
    ) -> (u32, StampSeat)
        requires cipher { HasCipher opening.context.now
            × (opening.context.now.limit ≡ self.old.book.limit) }
        requires spans { All (ItemIsInPool (length opening.pool.now)) opening.items.now }
        requires table { IsTableFor opening.context.now opening.pool.now opening.items.now
            opening.table.now }
        requires steps { length steps.old ≡ length opening.items.now }
        requires lane { opening.lane < length self.old.book.quotas }
        requires room { length (own opening.lane self.old.book.entries) + length opening.items.now
            ≤ slice_index self.old.book.quotas opening.lane }
        requires checks { checks.old + length opening.items.now < 2 ^ 64 }
        requires counter { self.old.seat.counter ≡ counter.now.id }
        requires seat { IsNote counter.now.id seat }
        ensures terms { terms_of self.new ≡ terms_of self.old }
        ensures steps { steps.new ≡ opening_steps opening.entry.context.now
            (seq_of self.old.book.entries) opening.entry.pool.now opening.entry.items.now }
        ensures added { (first : ℕ) × ComesAfter counter.now.id seat result.1
            self.old.book.entries first (length steps.new)
            × (self.new.book.entries ≡ self.old.book.entries
            ++ entries_from opening.entry.lane opening.entry.call 0 first steps.new) }
        ensures missed { result.0 ≡ opening_misses opening.entry.context.now
            (seq_of self.old.book.entries) opening.entry.pool.now opening.entry.items.now
            opening.entry.table.now.guess }
        ensures checks { (checks.old ≤ checks.new) × (checks.new ≤ checks.old + result.0) }
    {
        let Opening {
            context,
            pool,
            items,
            lane,
            call,
            table,
        } = opening;
        self.book.a_lanes_room_is_the_books(lane, items.len());
        let (first, seat) = draw_stamps(counter, &mut self.seat, seat, items.len() as u32);
        let missed = self.book.settle(
            context, pool, items, lane, call, first, table, steps, checks,
        );
        (missed, seat)
    }
}
