//! A book, and the drawing of a number from it.

ghost use Rattle.std.specs.Prelude.{ℕ, ◌≡◌, ◌↔◌, ◌+◌, ◌<◌, ◌≤◌, ◌++◌, ◌∷◌, [], length, slice_index, sum, IfOk};
ghost use Rattle.call_places.specs.Entries.{own, seq_of, StampsBelow};
ghost use Rattle.call_places.specs.Orders.{last_of, StampsRise};
ghost use Rattle.context_books.specs.Entries.{entry};
ghost use Rattle.context_books.specs.Books.{SameTerms, drawn_step, opened_at, MayStand, KeepsLimit, KeepsQuotas};

use call_places::{Entry, Listed, Place, Step};
use std::alloc::{AllocError as OutOfMemory, Global};
use std::marker::Model;

/// The answer to a draw.
#[derive(Clone, Copy, Debug, PartialEq, Eq)]
pub enum Draw {
    /// The sequence number of the seal.
    Number(u64),
    /// All numbers below LIMIT are used.
    Limit,
}

/// The changing part of one context. Contracts see its LIMIT, its quotas and its entries.
#[derive(Drop)]
pub struct Book {
    limit: u64,
    // The number that is due.
    seq: u64,
    quotas: Vec<u32>,
    // How many entries each lane may still add.
    left: Vec<u32>,
    entries: Vec<Entry>,
}

impl Model for Book {
    ghost use Rattle.std.specs.Prelude.{vec_capacity};
    ghost use Rattle.context_books.specs.Books.{BookView, IsBook};

    ghost Value = { BookView };

    ghost view = { λ b. record {
      limit = b.limit;
      quotas = b.quotas.items;
      entries = b.entries.items;
    } };

    ghost invariant = { λ b. IsBook b.limit b.seq b.quotas.items b.left.items b.entries.items
        (vec_capacity b.entries) };
}

impl Listed for Book {
    ghost entries = { λ b. b.entries };

    ghost terms = { λ b. record { limit = b.limit; quotas = b.quotas; counter = [] } };

    fn last_entry(&self) -> Option<Entry> {
        last(self.entries())
    }
}

#[tactic(auto, using(call_places::proofs::Last::last_is_last_of))]
fn last(entries: &[Entry]) -> Option<Entry>
    ensures { result ≡ last_of entries.now }
{
    entries.last().copied()
}

impl Book {
    /// A book with no entries. `limit` is LIMIT, 1 at least: the numbers 0 to LIMIT - 1 are used. Lane
    /// l may have `quotas[l]` entries, all lanes 65,536, and all the memory that they need is taken
    /// here.
    pub fn new(alloc: Global, limit: u64, quotas: &[u32]) -> Result<Book, OutOfMemory>
        requires limit { 1 ≤ limit }
        requires sum { sum quotas.now ≤ 65536 }
        ensures { IfOk result (λ b. b
            ≡ record { limit = limit; quotas = quotas.now; entries = [] }) }
    {
        let total: u32 = quotas.iter().sum();
        let entries = Vec::with_capacity(alloc, total as usize)?;
        let kept = Vec::from_slice(alloc, quotas)?;
        let left = Vec::from_slice(alloc, quotas)?;
        Ok(Book {
            limit,
            seq: 0,
            quotas: kept,
            left,
            entries,
        })
    }

    /// The sequence number that is due.
    pub fn seq(&self) -> u64
        ensures seq { result ≡ seq_of self.now.entries }
        ensures most { result ≤ self.now.limit }
    {
        self.seq
    }

    /// The entries, the oldest first. Their stamps rise, and no number reaches LIMIT.
    pub fn entries(&self) -> &[Entry]
        ensures entries { result.now ≡ self.now.entries }
        ensures limits { KeepsLimit self.now.limit self.now.entries }
        ensures quotas { KeepsQuotas self.now.quotas self.now.entries }
        ensures rise { StampsRise self.now.entries }
    {
        self.entries.as_slice()
    }

    /// Where a lane may add so many entries, all quotas together leave room for them.
    ///
    /// A law of the book: the call does nothing.
    pub fn a_lanes_room_is_the_books(&self, lane: u32, count: usize)
        requires lane { lane < length self.now.quotas }
        requires room { length (own lane self.now.entries) + count
            ≤ slice_index self.now.quotas lane }
        ensures room { length self.now.entries + count ≤ sum self.now.quotas }
        ensures few { sum self.now.quotas ≤ 65536 }
    {
        let _ = &self.limit;
        let _ = (lane, count);
    }

    /// Draws the number of a seal, and writes the step down at `place`, with `stamp`. Where all
    /// numbers are used, the refusal is written down.
    ///
    /// It isn't given the text: the number is the seal's, whatever is encrypted with it later.
    pub fn draw(&mut self, place: Place, stamp: u64) -> Draw
        requires lane { place.lane < length self.old.quotas }
        requires room { length (own place.lane self.old.entries)
            < slice_index self.old.quotas place.lane }
        requires stamp { StampsBelow stamp self.old.entries }
        ensures limit { (result ≡ Draw.Limit) ↔ (seq_of self.old.entries ≡ self.old.limit) }
        ensures number { (n : ℕ) → result ≡ Draw.Number n
            → (n ≡ seq_of self.old.entries) × (n < self.old.limit) }
        ensures added { self.new.entries
            ≡ self.old.entries ++ entry place stamp (drawn_step result) ∷ [] }
        ensures terms { SameTerms self.old self.new }
    {
        if self.seq == self.limit {
            self.add(place, stamp, Step::SealLimit);
            return Draw::Limit;
        }
        let number = self.seq;
        self.add(place, stamp, Step::Sealed);
        Draw::Number(number)
    }

    // Writes down what became of an item that is opened, where its tag holds at the number that is
    // due, or doesn't.
    pub(crate) fn open(&mut self, place: Place, stamp: u64, holds: bool) -> Step
        requires lane { place.lane < length self.old.quotas }
        requires room { length (own place.lane self.old.entries)
            < slice_index self.old.quotas place.lane }
        requires stamp { StampsBelow stamp self.old.entries }
        ensures step { result ≡ opened_at self.old.limit (seq_of self.old.entries) holds }
        ensures added { self.new.entries ≡ self.old.entries ++ entry place stamp result ∷ [] }
        ensures terms { SameTerms self.old self.new }
    {
        let step = if !holds {
            Step::Failed
        } else if self.seq < self.limit {
            Step::Opened
        } else {
            Step::OpenLimit
        };
        self.add(place, stamp, step);
        step
    }

    // Writes a step down.
    fn add(&mut self, place: Place, stamp: u64, step: Step)
        requires lane { place.lane < length self.old.quotas }
        requires room { length (own place.lane self.old.entries)
            < slice_index self.old.quotas place.lane }
        requires stamp { StampsBelow stamp self.old.entries }
        requires step { MayStand self.old.limit (seq_of self.old.entries) step }
        ensures terms { SameTerms self.old self.new }
        ensures added { self.new.entries ≡ self.old.entries ++ entry place stamp step ∷ [] }
    {
        self.left[place.lane as usize] -= 1;
        self.entries.push_reserved(Entry { place, stamp, step });
        if step.advances() {
            self.seq += 1;
        }
    }
}
