//! The table of a result whose lanes add and retire contexts, by itself and with the journals as one
//! history.
//!
//! Each call is taken as two: the first asks for the note of the call, on a context of its own behind
//! all others, and the second asks what the call asks as it was served. So the notes are a journal
//! like the others.

ghost use Rattle.std.specs.Prelude.{ℕ, ◌≡◌, ◌≤◌, ◌<◌, ◌+◌, ◌^◌, true, false, List, length, map, IfOk, MatchOption};
ghost use Rattle.std.specs.List.{list_all};
ghost use Rattle.batch_plans.specs.Limits.{most_contexts};
ghost use Rattle.batch_plans.specs.Within.{IsWithinLimits};
ghost use Rattle.batch_plans.specs.Names.{line_count};
ghost use Rattle.context_books.specs.Live.{noting as noting_of};
ghost use Rattle.context_books.specs.LiveChecks.{note_ask, note_mark, call_mark};
ghost use Rattle.context_books.specs.LiveChecks.{is_live_history as is_live_history_of};
ghost use Rattle.result_lines.specs.Journals.{is_journal as is_journal_of};
ghost use Rattle.journal_check.specs.Asks.{size_of as size_of_ask, AreFew, batch_from};
ghost use Rattle.journal_check.specs.Tables.{pairs_by, all_pairs_by, lane_lengths, is_low};
ghost use Rattle.journal_check.specs.Tables.{is_low_note, are_low, with_marks};
ghost use Rattle.journal_check.specs.Served.{IsServedBy, table_along};
ghost use Rattle.result_lines.specs.Computed.{is_table as is_table_of};

use crate::asks::{Asked, size_of};
use crate::dealing::{places_asked, places_told};
use crate::histories::is_history_by;
use crate::journals::{ByLane, is_journal};
use crate::lives::tell_lives;
use batch_plans::{CallLine, ContextReply, PlainList, Plan};
use call_places::{Entry, Mark, Place};
use hpke_context::Context;
use result_lines::noting;
use std::alloc::{AllocError, Global};

/// The notes of a result whose lanes add and retire contexts, and what they are judged by: the calls of
/// each lane as they were written, and the replies to the plan's contexts.
#[derive(Clone, Copy)]
pub(crate) struct Table<'a> {
    pub(crate) calls: &'a [PlainList<CallLine>],
    pub(crate) adds: &'a [ContextReply],
    pub(crate) notes: &'a [Entry],
}

// No lane has so many calls.
const MOST_CALLS: u32 = 65_536;

// ---- each call as two

// What the notes of calls are told by: the plan, the contexts that stand, and the context behind all
// others that the notes are on.
#[derive(Clone, Copy)]
struct Notes<'a> {
    plan: &'a Plan,
    contexts: &'a [Option<Context>],
    table: u32,
}

impl Notes<'_> {
    // What the note of a call asks, where it has one.
    fn size(&self, call: &CallLine) -> Asked
        requires { IsWithinLimits self.now.plan.now }
        ensures { result ≡ size_of_ask (note_ask self.now.table
            (noting_of self.now.plan.now self.now.contexts.now call.now)) }
    {
        match noting(self.plan, self.contexts, call) {
            Some(_) => Asked {
                context: self.table,
                count: 1,
            },
            None => Asked {
                context: 0,
                count: 0,
            },
        }
    }

    // Of each call of a lane what its note asks, and then what it asks as it was served.
    fn pair_sizes(
        &self,
        alloc: Global,
        calls: &[CallLine],
        served: &[CallLine],
    ) -> Result<PlainList<Asked>, AllocError>
        requires within { IsWithinLimits self.now.plan.now }
        requires size { length served.now ≡ length calls.now }
        ensures { IfOk result (λ sizes. sizes ≡ pairs_by self.now.plan.now self.now.contexts.now
            self.now.table calls.now served.now) }
    {
        let mut sizes = Vec::new(alloc);
        'calls: for number in 0..calls.len() {
            sizes.push(self.size(&calls[number]))?;
            sizes.push(size_of(self.contexts, &served[number]))?;
        }
        Ok(PlainList::from_vec(sizes))
    }

    // The same of all lanes, whose calls as they were served are those of the plan.
    fn all_sizes(
        &self,
        alloc: Global,
        calls: &[PlainList<CallLine>],
    ) -> Result<Vec<PlainList<Asked>>, AllocError>
        requires within { IsWithinLimits self.now.plan.now }
        requires sizes { lane_lengths calls.now ≡ lane_lengths self.now.plan.now.lanes }
        ensures { IfOk result (λ asks. asks.items ≡ all_pairs_by self.now.plan.now
            self.now.contexts.now self.now.table calls.now self.now.plan.now.lanes) }
    {
        let served = self.plan.lanes.as_slice();
        let mut asks = Vec::new(alloc);
        'lanes: for lane in 0..calls.len() {
            let own = self.pair_sizes(alloc, calls[lane].as_slice(), served[lane].as_slice())?;
            asks.push(own)?;
        }
        Ok(asks)
    }
}

// What the notes of all calls ask, and the calls as they were served.
fn asks_with_table(
    alloc: Global,
    plan: &Plan,
    contexts: &[Option<Context>],
    calls: &[PlainList<CallLine>],
    table: u32,
) -> Result<Vec<PlainList<Asked>>, AllocError>
    requires within { IsWithinLimits plan.now }
    requires sizes { lane_lengths calls.now ≡ lane_lengths plan.now.lanes }
    ensures { IfOk result (λ asks.
        asks.items ≡ all_pairs_by plan.now contexts.now table calls.now plan.now.lanes) }
{
    let notes = Notes {
        plan,
        contexts,
        table,
    };
    notes.all_sizes(alloc, calls)
}

// ---- the places of the calls that are two each

// The note of a call, as the place of the first of its two.
fn mark_of_note(entry: &Entry) -> Mark
    requires { entry.now.place.call < 65536 }
    ensures { result ≡ note_mark entry.now }
{
    Mark {
        place: Place {
            lane: entry.place.lane,
            call: 2 * entry.place.call,
            item: entry.place.item,
        },
        stamp: entry.stamp,
    }
}

// The place of an item of a call, as one of the second of its two.
fn mark_of_call(mark: Mark) -> Mark
    requires { mark.place.call < 65536 }
    ensures { result ≡ call_mark mark }
{
    Mark {
        place: Place {
            lane: mark.place.lane,
            call: 2 * mark.place.call + 1,
            item: mark.place.item,
        },
        stamp: mark.stamp,
    }
}

// The notes as a journal, unless one is of a call that no lane has.
fn note_marks(alloc: Global, notes: &[Entry]) -> Result<Option<PlainList<Mark>>, AllocError>
    ensures { IfOk result (λ found. MatchOption found (list_all is_low_note notes.now ≡ false)
        (λ marks. marks ≡ map note_mark notes.now)) }
{
    let mut marks = Vec::new(alloc);
    'notes: for entry in notes {
        if entry.place.call >= MOST_CALLS {
            return Ok(None);
        }
        marks.push(mark_of_note(entry))?;
    }
    Ok(Some(PlainList::from_vec(marks)))
}

// A journal, unless a place is of a call that no lane has.
fn call_marks(alloc: Global, journal: &[Mark]) -> Result<Option<PlainList<Mark>>, AllocError>
    ensures { IfOk result (λ found. MatchOption found (list_all is_low journal.now ≡ false)
        (λ marks. (marks ≡ map call_mark journal.now) × (list_all is_low journal.now ≡ true))) }
{
    let mut marks = Vec::new(alloc);
    'marks: for mark in journal {
        if mark.place.call >= MOST_CALLS {
            return Ok(None);
        }
        marks.push(mark_of_call(*mark))?;
    }
    Ok(Some(PlainList::from_vec(marks)))
}

// All journals, unless a place is of a call that no lane has.
fn journal_marks(
    alloc: Global,
    journals: &[PlainList<Mark>],
) -> Result<Option<Vec<PlainList<Mark>>>, AllocError>
    ensures { IfOk result (λ found. MatchOption found
        (list_all (list_all is_low) journals.now ≡ false)
        (λ marks. marks.items ≡ map (map call_mark) journals.now)) }
{
    let mut marks = Vec::new(alloc);
    'journals: for journal in journals {
        let Some(own) = call_marks(alloc, journal.as_slice())? else {
            return Ok(None);
        };
        marks.push(own)?;
    }
    Ok(Some(marks))
}

// The journals, and the table behind them.
fn table_marks(
    alloc: Global,
    journals: &[PlainList<Mark>],
    notes: &[Entry],
) -> Result<Option<Vec<PlainList<Mark>>>, AllocError>
    ensures { IfOk result (λ found. MatchOption found (are_low journals.now notes.now ≡ false)
        (λ marks. marks.items ≡ with_marks journals.now notes.now)) }
{
    let Some(table) = note_marks(alloc, notes)? else {
        return Ok(None);
    };
    let Some(mut marks) = journal_marks(alloc, journals)? else {
        return Ok(None);
    };
    marks.push(table)?;
    Ok(Some(marks))
}

// ---- the table

// Whether a journal is that of this context, with stamps that rise.
fn is_one_journal(
    alloc: Global,
    asks: &[PlainList<Asked>],
    context: usize,
    marks: PlainList<Mark>,
) -> Result<bool, AllocError>
    requires within { AreFew asks.now }
    requires few { context < 2 ^ 32 }
    ensures { IfOk result (λ good. good ≡ is_journal_of true (batch_from asks.now) context marks) }
{
    let journals = [marks];
    let asked = places_asked(alloc, asks, context + 1)?;
    let told = places_told(alloc, asks.len(), &journals)?;
    let due = asked[context].as_slice();
    let by_lane = ByLane {
        told: told[0].as_slice(),
        asked: due,
    };
    is_journal(alloc, asks, true, journals[0].as_slice(), by_lane)
}

/// Whether a table is legal, over the plan whose calls are those as they were served: it has the notes
/// that the calls make which were written, each lane's in order, with stamps that rise, and each tells
/// whether its name was live after the notes before it. What a note does is what its call does, as
/// far as its call has one.
pub(crate) fn is_table(
    alloc: Global,
    plan: &Plan,
    contexts: &[Option<Context>],
    table: &Table,
    journals: &[PlainList<Mark>],
) -> Result<bool, AllocError>
    requires within { IsWithinLimits plan.now }
    requires few { length journals.now < 2 ^ 32 }
    requires served { IsServedBy plan.now contexts.now table.now }
    ensures { IfOk result (λ good. good
        ≡ is_table_of (table_along plan.now contexts.now table.now journals.now)) }
{
    let Some(marks) = note_marks(alloc, table.notes)? else {
        return Ok(false);
    };
    let asks = asks_with_table(alloc, plan, contexts, table.calls, journals.len() as u32)?;
    if !is_one_journal(alloc, &asks, journals.len(), marks)? {
        return Ok(false);
    }
    tell_lives(alloc, table.notes)
}

/// Whether the stamps make one history of all journals and a legal table, over the plan whose calls are
/// those as they were served.
pub(crate) fn is_live_history(
    alloc: Global,
    plan: &Plan,
    contexts: &[Option<Context>],
    table: &Table,
    journals: &[PlainList<Mark>],
) -> Result<bool, AllocError>
    requires within { IsWithinLimits plan.now }
    requires few { length journals.now + 1 < 2 ^ 32 }
    requires served { IsServedBy plan.now contexts.now table.now }
    requires table { is_table_of (table_along plan.now contexts.now table.now journals.now)
        ≡ true }
    ensures { IfOk result (λ good. good
        ≡ is_live_history_of (table_along plan.now contexts.now table.now journals.now)) }
{
    let Some(marks) = table_marks(alloc, journals, table.notes)? else {
        return Ok(false);
    };
    let asks = asks_with_table(alloc, plan, contexts, table.calls, journals.len() as u32)?;
    is_history_by(alloc, &asks, &marks)
}
