//! A table of the contexts that are there for calls: its turns and its close.

ghost use Rattle.std.specs.Prelude.{◌≡◌, ◌+◌, ◌<◌, ◌≤◌, [], All, IfOk, length, sum};
ghost use Rattle.call_places.specs.Entries.{stamps_of};
ghost use Rattle.call_places.specs.Orders.{StampsRise};
ghost use Rattle.call_places.specs.Notes.{AreLive};
ghost use Rattle.turn_lock.specs.Passes.{fresh_from, AllOf, IsShown, NoOthers};
ghost use Rattle.stamp_counter.specs.Stamps.{IsNote};
ghost use Rattle.stamp_counter.specs.Turns.{MayCall};
ghost use Rattle.live_table.specs.Calls.{HasNoted};

use crate::note_list::NoteList;
use crate::notes::Notes;
use call_places::{Act, Place};
use stamp_counter::{StampCounter, StampSeat};
use std::alloc::{AllocError as OutOfMemory, Global};
use std::marker::Model;
use std::sync::Wait;
use turn_lock::{Pass, PassList, TurnLock};

/// A table of names that come and go, which threads share, each with a [`Pass`] of its own. Contracts
/// see how many names there are, which lock the notes are under, and how many passes there are. The
/// lock's terms are a limit of 1, which means nothing here, a quota for each pass, and the counter
/// that stamps come from.
#[derive(Drop)]
pub struct LiveTable {
    names: u32,
    lock: TurnLock<Notes>,
}

impl Model for LiveTable {
    ghost use Rattle.std.specs.Prelude.{◌≤◌};
    ghost use Rattle.live_table.specs.Calls.{TableView};

    ghost Value = { TableView };

    ghost view = { λ t. record { names = t.names; lock = t.lock.lock; passes = t.lock.passes } };

    ghost invariant = { λ t. t.names ≤ 256 };
}

impl LiveTable {
    /// A table of so many names, none of them live, with a pass for each quota: pass l may add
    /// `quotas[l]` notes. The stamps of all notes are drawn from `seat`.
    ///
    /// All the memory that the table ever takes is taken here. Where there is none, the seat is
    /// dropped.
    pub fn new(
        alloc: Global,
        names: u32,
        quotas: &[u32],
        seat: StampSeat,
    ) -> Result<(LiveTable, PassList), OutOfMemory>
        requires names { names ≤ 256 }
        requires count { (0 < length quotas.now) × (length quotas.now < 65536) }
        requires sum { sum quotas.now ≤ 65536 }
        requires seat { (seat.drawn ≡ []) × (seat.left ≡ sum quotas.now) }
        ensures names { IfOk result (λ r. r.0.names ≡ names) }
        ensures terms { IfOk result (λ r. r.0.lock.terms
            ≡ record { limit = 1; quotas = quotas.now; counter = seat.counter }) }
        ensures count { IfOk result (λ r. (r.0.passes ≡ length quotas.now)
            × (r.1.made ≡ length quotas.now)) }
        ensures passes { IfOk result
            (λ r. r.1.passes ≡ fresh_from r.0.lock 0 (length quotas.now)) }
    {
        let notes = Notes::new(alloc, quotas, seat)?;
        let (lock, passes) = TurnLock::new(alloc, notes, quotas.len() as u32)?;
        Ok((LiveTable { names, lock }, passes))
    }

    /// Takes a turn and notes that the lane of the pass adds a name, retires it, or looks it up for a
    /// call. The answer says whether the name was live before.
    ///
    /// The note stands at item 0 of the call, whatever the answer. Its stamp comes after all that the
    /// lane's `seat` knew; the seat that comes back knows of it. It takes no memory.
    pub fn note<R: Wait>(
        &self,
        rt: &R,
        pass: Pass,
        counter: &StampCounter,
        seat: StampSeat,
        call: u32,
        name: u32,
        act: Act,
    ) -> (bool, Pass, StampSeat)
        requires may { MayCall self.now.lock pass call 1 }
        requires name { name < self.now.names }
        requires counter { self.now.lock.terms.counter ≡ counter.now.id }
        requires seat { IsNote counter.now.id seat }
        ensures { HasNoted pass result.1 seat result.2 call name act result.0 }
    {
        let place = Place {
            lane: pass.number(),
            call,
            item: 0,
        };
        let mut held = self.lock.enter(rt, pass);
        let (live, seat) = held.value().note(counter, seat, place, name, act);
        (live, self.lock.leave(held), seat)
    }

    /// The notes and the seat, once every pass has come back. It waits for nobody.
    pub fn close(self, passes: PassList) -> (NoteList, StampSeat)
        requires lock { AllOf self.lock passes.passes }
        requires all { length passes.passes ≡ self.passes }
        ensures shown { All (IsShown result.0) passes.passes }
        ensures others { NoOthers result.0 passes.passes }
        ensures live { AreLive result.0 }
        ensures rise { StampsRise result.0 }
        ensures counter { result.1.counter ≡ self.lock.terms.counter }
        ensures stamps { result.1.drawn ≡ stamps_of result.0 }
        ensures left { result.1.left + length result.0 ≡ sum self.lock.terms.quotas }
    {
        let LiveTable { names: _, lock } = self;
        let (entries, seat) = lock.close(passes).into_parts();
        (NoteList { entries }, seat)
    }
}
