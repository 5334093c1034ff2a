//! The table of a plan whose lanes are served one after another.

ghost use Rattle.std.specs.Prelude.{ℕ, ◌≡◌, ◌<◌, ◌^◌, ◌++◌, ◌∷◌, [], All, Bool, List, Some, length, IfOk, OnOk};
ghost use Rattle.batch_plans.specs.Within.{IsCallWithin, IsWithinLimits};
ghost use Rattle.call_places.specs.declared.entries.Entry.{Entry as Entry_};
ghost use Rattle.call_places.specs.declared.entries.Place.{Place as Place_};
ghost use Rattle.call_places.specs.Notes.{note_entry, live_at};
ghost use Rattle.context_books.specs.Standing.{call_refusal};
ghost use Rattle.batch_alone.specs.Tables.{next_stamp, with_note, with_places, after_call};
ghost use Rattle.batch_alone.specs.Tables.{after_calls, nothing, table_of};
ghost use Rattle.batch_alone.specs.Turns.{so_far, places_in, KeepsLive};

use batch_plans::{CallLine, Plan};
use call_places::{Act, Entry, Place, Step};
use context_books::refusal_of;
use hpke_context::Context;
use result_lines::{NamedAct, looked_up, noting};
use std::alloc::{AllocError, Global};

/// What was noted so far, while lanes are served one after another, and the stamps of the places of
/// their calls.
#[derive(Drop)]
pub(crate) struct InTurn {
    pub(crate) notes: Vec<Entry>,
    pub(crate) stamps: Vec<u64>,
    /// Which names are live.
    pub(crate) live: Vec<bool>,
}

// Whether a name is live after a note of this act, where it was before it or not.
fn after(act: Act, live: bool) -> bool
    ensures { (entries : List Entry_) (p : Place_) (stamp name : ℕ) (told : Bool)
        → live ≡ live_at entries name
        → result ≡ live_at (entries ++ note_entry p stamp name act told ∷ []) name }
{
    match act {
        Act::Add => true,
        Act::Retire => false,
        Act::Look => live,
    }
}

// How many places a call is given as it is served.
fn places_of(contexts: &[Option<Context>], call: &CallLine) -> u32
    ensures { result ≡ places_in (call_refusal contexts.now call.now) call.now }
{
    if refusal_of(contexts, call).is_some() {
        return 0;
    }
    match *call {
        CallLine::Seal { .. } | CallLine::Unseal { .. } => 1,
        CallLine::UnsealAll { count, .. } => count,
        CallLine::Export { .. } | CallLine::Add { .. } | CallLine::Retire { .. } => 0,
    }
}

impl InTurn {
    // Before the first call. No name is live.
    fn new(alloc: Global, names: u32) -> Result<InTurn, AllocError>
        ensures nothing { IfOk result (λ t. so_far t ≡ nothing) }
        ensures live { IfOk result (λ t. KeepsLive names t) }
    {
        let live = vec![in alloc; false; names as usize]?;
        Ok(InTurn {
            notes: Vec::new(alloc),
            stamps: Vec::new(alloc),
            live,
        })
    }

    // The stamp that comes next.
    fn next_stamp(&self) -> u64
        ensures { result ≡ next_stamp (so_far self.now) }
    {
        (self.notes.len() + self.stamps.len()) as u64
    }

    // Notes what a call does to a name, and tells whether the name was live.
    fn note(&mut self, lane: u32, call: u32, noted: NamedAct) -> Result<bool, AllocError>
        requires { KeepsLive (length self.old.live.items) self.old
            × (noted.name < length self.old.live.items) }
        ensures told { IfOk result (λ live. live ≡ live_at self.old.notes.items noted.name) }
        ensures noted { OnOk result
            (so_far self.new ≡ with_note lane call (Some noted) (so_far self.old)) }
        ensures live { OnOk result (KeepsLive (length self.old.live.items) self.new) }
    {
        let live = self.live[noted.name as usize];
        let place = Place {
            lane,
            call,
            item: 0,
        };
        let step = Step::Note {
            name: noted.name,
            act: noted.act,
            live,
        };
        let stamp = self.next_stamp();
        self.notes.push(Entry { place, stamp, step })?;
        self.live[noted.name as usize] = after(noted.act, live);
        Ok(live)
    }

    // The stamps of so many places, which come next.
    fn give_places(&mut self, count: u32) -> Result<(), AllocError>
        ensures places { OnOk result (so_far self.new ≡ with_places count (so_far self.old)) }
        ensures live { self.new.live.items ≡ self.old.live.items }
    {
        'places: for _place in 0..count {
            let stamp = self.next_stamp();
            self.stamps.push(stamp)?;
        }
        Ok(())
    }

    // A call: its note, if it has one, and then its places.
    fn serve(
        &mut self,
        plan: &Plan,
        contexts: &[Option<Context>],
        lane: u32,
        number: u32,
        call: &CallLine,
    ) -> Result<(), AllocError>
        requires within { IsWithinLimits plan.now }
        requires count { length contexts.now ≡ length plan.now.contexts }
        requires call { IsCallWithin (length plan.now.items) (length plan.now.pool) call.now }
        requires live { KeepsLive plan.now.added self.old }
        ensures served { OnOk result (so_far self.new
            ≡ after_call plan.now contexts.now lane number call.now (so_far self.old)) }
        ensures live { OnOk result (KeepsLive plan.now.added self.new) }
    {
        let live = match noting(plan, contexts, call) {
            Some(noted) => self.note(lane, number, noted)?,
            None => false,
        };
        let served = looked_up(plan, call, live);
        self.give_places(places_of(contexts, &served))
    }

    // The calls of a lane.
    fn serve_lane(
        &mut self,
        plan: &Plan,
        contexts: &[Option<Context>],
        lane: u32,
        calls: &[CallLine],
    ) -> Result<(), AllocError>
        requires within { IsWithinLimits plan.now }
        requires count { length contexts.now ≡ length plan.now.contexts }
        requires few { length calls.now < 2 ^ 32 }
        requires calls { All (IsCallWithin (length plan.now.items) (length plan.now.pool)) calls.now }
        requires live { KeepsLive plan.now.added self.old }
        ensures served { OnOk result (so_far self.new
            ≡ after_calls plan.now contexts.now lane 0 calls.now (so_far self.old)) }
        ensures live { OnOk result (KeepsLive plan.now.added self.new) }
    {
        'calls: for (number, call) in calls.iter().enumerate() {
            self.serve(plan, contexts, lane, number as u32, call)?;
        }
        Ok(())
    }
}

/// The table of a plan, whose lanes are served one after another.
pub(crate) fn table(
    alloc: Global,
    plan: &Plan,
    contexts: &[Option<Context>],
) -> Result<InTurn, AllocError>
    requires within { IsWithinLimits plan.now }
    requires count { length contexts.now ≡ length plan.now.contexts }
    ensures { IfOk result (λ t. so_far t ≡ table_of plan.now contexts.now) }
{
    let mut table = InTurn::new(alloc, plan.added)?;
    'lanes: for (lane, calls) in plan.lanes.as_slice().iter().enumerate() {
        table.serve_lane(plan, contexts, lane as u32, calls.as_slice())?;
    }
    Ok(table)
}
