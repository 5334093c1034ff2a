//! The value under a table's lock: its notes, with the seat that their stamps are drawn from.

ghost use Rattle.std.specs.Prelude.{ℕ, ◌≡◌, ◌+◌, ◌<◌, ◌≤◌, ◌++◌, ◌∷◌, [], Bool, false, List, IfOk, length, slice_index, slice_index_or, sum};
ghost use Rattle.call_places.specs.declared.entries.Entry.{Entry};
ghost use Rattle.call_places.specs.declared.entries.Place.{Place};
ghost use Rattle.call_places.specs.Entries.{own, stamps_of};
ghost use Rattle.call_places.specs.Orders.{last_of, StampsRise};
ghost use Rattle.call_places.specs.Notes.{note_entry, live_at, AreLive};
ghost use Rattle.stamp_counter.specs.Stamps.{IsNote, ComesAfter};
ghost use Rattle.live_table.specs.Notes.{terms_of};

use call_places::{Act, Entry, Listed, Place, Step};
use stamp_counter::{StampCounter, StampSeat, draw_stamps};
use std::alloc::{AllocError as OutOfMemory, Global};
use std::marker::Model;

// No table has more names.
const MOST_NAMES: usize = 256;

/// Notes with the seat that their stamps are drawn from. Contracts see them, the seat, and how many
/// entries each lane may have: the seat has drawn the stamps of the entries, in their order, and may
/// draw as many more as the quotas leave.
#[derive(Drop)]
pub struct Notes {
    quotas: Vec<u32>,
    entries: Vec<Entry>,
    // Which names are live.
    live: [bool; MOST_NAMES],
    seat: StampSeat,
}

impl Model for Notes {
    ghost use Rattle.std.specs.Prelude.{vec_capacity};
    ghost use Rattle.live_table.specs.Notes.{NotesView, AreNotes};

    ghost Value = { NotesView };

    ghost view = { λ n. record {
      quotas = n.quotas.items;
      entries = n.entries.items;
      seat = n.seat;
    } };

    ghost invariant = { λ n. AreNotes n.quotas.items n.entries.items (vec_capacity n.entries)
        n.live n.seat };
}

impl Listed for Notes {
    ghost use Rattle.live_table.specs.Notes.{terms_of};

    ghost entries = { λ n. n.entries };

    ghost terms = { λ n. terms_of n };

    fn last_entry(&self) -> Option<Entry> {
        last(self.entries.as_slice())
    }
}

#[tactic(auto, using(call_places::proofs::Last::last_is_last_of))]
fn last(entries: &[Entry]) -> Option<Entry>
    ensures { result ≡ last_of entries.now }
{
    entries.last().copied()
}

// Whether a name is live after a note of this act, where it was before it or not.
fn after(act: Act, live: bool) -> bool
    ensures { (entries : List Entry) (p : Place) (stamp name : ℕ) (told : Bool)
        → live ≡ live_at entries name
        → result ≡ live_at (entries ++ note_entry p stamp name act told ∷ []) name }
{
    match act {
        Act::Add => true,
        Act::Retire => false,
        Act::Look => live,
    }
}

// No name is live.
fn none_live() -> [bool; MOST_NAMES]
    ensures { (name : ℕ) → name < 256 → slice_index_or result name false ≡ false }
{
    [false; MOST_NAMES]
}

impl Notes {
    // No notes, with room for as many as the quotas allow.
    pub(crate) fn new(alloc: Global, quotas: &[u32], seat: StampSeat) -> Result<Notes, OutOfMemory>
        requires sum { sum quotas.now ≤ 65536 }
        requires seat { (seat.drawn ≡ []) × (seat.left ≡ sum quotas.now) }
        ensures { IfOk result (λ n. n
            ≡ record { quotas = quotas.now; entries = []; seat = seat }) }
    {
        let total: u32 = quotas.iter().sum();
        let entries = Vec::with_capacity(alloc, total as usize)?;
        let kept = Vec::from_slice(alloc, quotas)?;
        Ok(Notes {
            quotas: kept,
            entries,
            live: none_live(),
            seat,
        })
    }

    // Notes an act on a name, and tells whether the name was live before.
    pub(crate) fn note(
        &mut self,
        counter: &StampCounter,
        seat: StampSeat,
        place: Place,
        name: u32,
        act: Act,
    ) -> (bool, StampSeat)
        requires lane { place.lane < length self.old.quotas }
        requires room { length (own place.lane self.old.entries)
            < slice_index self.old.quotas place.lane }
        requires name { name < 256 }
        requires counter { self.old.seat.counter ≡ counter.now.id }
        requires seat { IsNote counter.now.id seat }
        ensures terms { terms_of self.new ≡ terms_of self.old }
        ensures live { result.0 ≡ live_at self.old.entries name }
        ensures added { (stamp : ℕ)
            × ComesAfter counter.now.id seat result.1 self.old.entries stamp 1
            × (self.new.entries
            ≡ self.old.entries ++ note_entry place stamp name act result.0 ∷ []) }
    {
        let (stamp, seat) = draw_stamps(counter, &mut self.seat, seat, 1);
        let live = self.live[name as usize];
        let step = Step::Note { name, act, live };
        self.entries.push_reserved(Entry { place, stamp, step });
        self.live[name as usize] = after(act, live);
        (live, seat)
    }

    // The notes and the seat.
    pub(crate) fn into_parts(self) -> (Vec<Entry>, StampSeat)
        ensures parts { (result.0.items ≡ self.entries) × (result.1 ≡ self.seat) }
        ensures stamps { result.1.drawn ≡ stamps_of result.0.items }
        ensures left { result.1.left + length result.0.items ≡ sum self.quotas }
        ensures rise { StampsRise result.0.items }
        ensures live { AreLive result.0.items }
    {
        let Notes {
            quotas: _,
            entries,
            live: _,
            seat,
        } = self;
        (entries, seat)
    }
}
