//! The counter: making it, drawing from it, and its close.

ghost use Rattle.std.specs.Prelude.{◌≡◌, ◌+◌, ◌-◌, ◌<◌, ◌≤◌, ◌++◌, [], sum, max, length, vec_len, vec_capacity, IfOk, IsPermutation};
ghost use Rattle.std.specs.List.{range_with_len};
ghost use Rattle.stamp_counter.specs.Seats.{fresh_seats, id_of};
ghost use Rattle.stamp_counter.specs.Steps.{dealing_view};

use crate::rules::{About, Counting, Draw, Gather, Give, Note};
use crate::seats::{SeatList, StampSeat};
use crate::views::View;
use atomic_table::{Seat, Table};
use std::alloc::{AllocError as OutOfMemory, Global};
use std::marker::Model;
use std::snapshot::Snapshot;

// The word of the table: how many stamps were drawn.
const DRAWN: usize = 0;

/// A counter of stamps. Contracts see which counter it is, as a list of numbers, and the sum of its
/// shares.
///
/// Threads share it by reference, and a [`StampSeat`] may be sent.
#[derive(Drop)]
pub struct StampCounter {
    table: Table<(), View, About, Counting, Global>,
}

impl Model for StampCounter {
    ghost use Rattle.std.specs.Prelude.{◌≡◌, ◌≤◌, sum};
    ghost use Rattle.stamp_counter.specs.Seats.{CounterView, id_of};

    ghost Value = { CounterView };

    ghost view = { λ c. record {
      id = id_of c.table.shared.table_id (sum c.table.shared.key.shares.value.items);
      all = sum c.table.shared.key.shares.value.items;
    } };

    ghost invariant = { λ c. (c.table.shared.table_id.words ≡ 1)
        × (c.table.shared.table_id.slots ≡ 0)
        × (sum c.table.shared.key.shares.value.items ≤ 1048576) };
}

impl StampCounter {
    /// A counter that has given no stamp, and a seat for each share.
    ///
    /// All the memory that the counter ever takes is taken here.
    pub fn new(alloc: Global, shares: &[u32]) -> Result<(StampCounter, SeatList), OutOfMemory>
        requires count { (0 < length shares.now) × (length shares.now ≤ 512) }
        requires sum { sum shares.now ≤ 1048576 }
        ensures all { IfOk result (λ r. r.0.all ≡ sum shares.now) }
        ensures seats { IfOk result (λ r. r.1 ≡ fresh_seats r.0.id shares.now) }
    {
        let mut seats = Vec::with_capacity(alloc, shares.len())?;
        let kept = Vec::from_slice(alloc, shares)?;
        let about = About {
            shares: Snapshot::of(&kept),
        };
        let (table, seat) = Table::<(), View, About, Counting, Global>::of_words(
            alloc,
            &[0],
            &about,
        )?;
        let counter = StampCounter { table };
        counter.deal(seat, &mut seats, &kept);
        Ok((counter, SeatList { seats }))
    }

    // A seat for each share.
    fn deal(&self, mut seat: Seat<(), View>, seats: &mut Vec<StampSeat>, shares: &Vec<u32>)
        requires counter { id_of seat.table_id self.now.all ≡ self.now.id }
        requires seat { seat.me ≡ (dealing_view self.now.all shares.now.items, []) }
        requires list { (seats.old.items ≡ []) × (vec_len shares.now ≤ vec_capacity seats.old) }
        ensures { seats.new.items ≡ fresh_seats self.now.id shares.now.items }
    {
        for _ in 0..shares.len() {
            let given = self.table.shared.split_seat::<Give>(&mut seat);
            seats.push_reserved(StampSeat { seat: given });
        }
    }

    /// A seat that knows what `seat` knows of the count, and that may draw nothing.
    ///
    /// Joined to another seat, it makes that one's next stamp come after all that `seat` drew.
    pub fn note(&self, seat: &mut StampSeat) -> StampSeat
        requires { seat.old.counter ≡ self.now.id }
        ensures seat { seat.new ≡ seat.old }
        ensures noted { result
            ≡ record { counter = self.now.id; low = seat.old.low; drawn = []; left = 0 } }
    {
        StampSeat {
            seat: self.table.shared.split_seat::<Note>(&mut seat.seat),
        }
    }

    /// Takes `other` in: what it drew, what it has left, and what it knows of the count. The stamps
    /// that `other` drew come after those of `seat` in the list, in whichever order they were drawn.
    pub fn join(&self, seat: &mut StampSeat, other: StampSeat)
        requires seat { seat.old.counter ≡ self.now.id }
        requires other { other.counter ≡ self.now.id }
        ensures { seat.new ≡ record {
          counter = self.now.id;
          low = max seat.old.low other.low;
          drawn = seat.old.drawn ++ other.drawn;
          left = seat.old.left + other.left;
        } }
    {
        let StampSeat { seat: other } = other;
        self.table.shared.join_seat::<Gather>(&mut seat.seat, other);
    }

    /// Draws so many stamps, which follow one another. The answer is the first.
    ///
    /// It is one step on one word: it waits for nobody, and no other draw comes between the stamps.
    pub fn draw(&self, seat: &mut StampSeat, count: u32) -> u64
        requires counter { seat.old.counter ≡ self.now.id }
        requires left { count ≤ seat.old.left }
        ensures least { seat.old.low ≤ result }
        ensures most { result + count ≤ self.now.all }
        ensures small { self.now.all ≤ 1048576 }
        ensures seat { seat.new ≡ record {
          counter = self.now.id;
          low = result + count;
          drawn = seat.old.drawn ++ range_with_len result count;
          left = seat.old.left - count;
        } }
    {
        self.table
            .shared
            .fetch_add::<Draw>(&mut seat.seat, DRAWN, u64::from(count))
    }

    /// How many stamps were drawn: they are the numbers below, each once.
    ///
    /// The seat has to have all that was drawn and all that is left. A seat that was let go takes
    /// its stamps with it, and the counter can then not be closed.
    pub fn close(self, seat: StampSeat) -> u64
        requires counter { seat.counter ≡ self.id }
        requires all { length seat.drawn + seat.left ≡ self.all }
        ensures count { result ≡ length seat.drawn }
        ensures stamps { IsPermutation seat.drawn (range_with_len 0 result) }
    {
        let StampCounter { table } = self;
        let StampSeat { seat } = seat;
        let closed = table.close_with(seat);
        let drawn = closed.word(DRAWN);
        closed.free();
        drawn
    }
}
