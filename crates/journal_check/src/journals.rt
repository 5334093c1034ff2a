//! Journals by themselves.

ghost use Rattle.std.specs.Prelude.{ℕ, ◌≡◌, ◌<◌, ◌^◌, ◌&&◌, ◌||◌, ◌+◌, ◌==◌, not, nat_lt, []};
ghost use Rattle.std.specs.Prelude.{length, map, slice_index_or, IfOk};
ghost use Rattle.std.specs.List.{list_all};
ghost use Rattle.batch_plans.specs.Within.{IsWithinLimits};
ghost use Rattle.context_books.specs.Batches.{Batch, place as place_of};
ghost use Rattle.context_books.specs.Legal.{is_same_place};
ghost use Rattle.context_books.specs.Histories.{places as places_in, marks_at};
ghost use Rattle.context_books.specs.Checks.{has_lanes as has_lanes_of};
ghost use Rattle.context_books.specs.Checks.{is_unbroken as is_unbroken_of};
ghost use Rattle.context_books.specs.Checks.{is_legal as is_legal_of};
ghost use Rattle.context_books.specs.Asks.{batch_of};
ghost use Rattle.result_lines.specs.Journals.{stamps_rise as stamps_rise_of};
ghost use Rattle.result_lines.specs.Journals.{is_journal as is_journal_of};
ghost use Rattle.result_lines.specs.Journals.{broken_journal as broken_journal_of};
ghost use Rattle.journal_check.specs.Asks.{AreFew, batch_from};
ghost use Rattle.journal_check.specs.Piles.{in_lanes, asked_on};

use crate::asks::{Asked, asks_of, goes_on};
use crate::dealing::{places_asked, places_told};
use crate::same::are_same;
use batch_plans::{PlainList, Plan};
use call_places::{Mark, Place};
use hpke_context::Context;
use std::alloc::{AllocError, Global};

/// The places of a journal, and those that are asked for on its context, both lane by lane.
#[derive(Clone, Copy)]
pub(crate) struct ByLane<'a> {
    pub(crate) told: &'a [Place],
    pub(crate) asked: &'a [Place],
}

// Whether each place is of one of so many lanes.
fn are_of_lanes(marks: &[Mark], lanes: usize) -> bool
    ensures { result ≡ list_all (λ p. nat_lt p.lane lanes) (places_in marks.now) }
{
    'marks: for mark in marks {
        if mark.place.lane as usize >= lanes {
            return false;
        }
    }
    true
}

// Whether no place is of a lane that isn't there, and each lane's places are those that it asks for
// on the context, in order: lane by lane, the journal's places are those that are asked for.
fn has_lanes(marks: &[Mark], lanes: usize, by_lane: ByLane) -> bool
    requires { by_lane.told.now ≡ in_lanes lanes (places_in marks.now) }
    ensures { (batch : Batch) (context : ℕ) → length batch ≡ lanes
        → by_lane.entry.asked.now ≡ asked_on batch context
        → result ≡ has_lanes_of batch context (places_in marks.now) }
{
    are_of_lanes(marks, lanes) && are_same(by_lane.told, by_lane.asked)
}

// Whether a place is that of the next item.
fn is_next(p: Place, q: Place) -> bool
    ensures { result ≡ is_same_place q (place_of p.lane p.call (p.item + 1)) }
{
    q.lane == p.lane && q.call == p.call && q.item as u64 == p.item as u64 + 1
}

/// Whether the next item of an opening stands next wherever an opening goes on.
pub(crate) fn is_unbroken(asks: &[PlainList<Asked>], places: &[Place]) -> bool
    ensures { result ≡ is_unbroken_of (batch_from asks.now) places.now }
{
    'places: for i in 0..places.len() {
        if goes_on(asks, places[i]) {
            if i + 1 == places.len() || !is_next(places[i], places[i + 1]) {
                return false;
            }
        }
    }
    true
}

fn places_of(alloc: Global, marks: &[Mark]) -> Result<Vec<Place>, AllocError>
    ensures { IfOk result (λ places. places.items ≡ places_in marks.now) }
{
    marks.iter().map(|mark| mark.place).collect(alloc)
}

// Whether a journal is legal, by its places and those that are asked for, lane by lane.
fn is_legal(
    alloc: Global,
    asks: &[PlainList<Asked>],
    marks: &[Mark],
    by_lane: ByLane,
) -> Result<bool, AllocError>
    requires { by_lane.told.now ≡ in_lanes (length asks.now) (places_in marks.now) }
    ensures { IfOk result (λ good. (context : ℕ)
        → by_lane.entry.asked.now ≡ asked_on (batch_from asks.now) context
        → good ≡ is_legal_of (batch_from asks.now) context (places_in marks.now)) }
{
    if !has_lanes(marks, asks.len(), by_lane) {
        return Ok(false);
    }
    let places = places_of(alloc, marks)?;
    Ok(is_unbroken(asks, &places))
}

// Whether each stamp is below the next.
fn stamps_rise(marks: &[Mark]) -> bool
    ensures { result ≡ stamps_rise_of marks.now }
{
    'marks: for i in 1..marks.len() {
        if marks[i - 1].stamp >= marks[i].stamp {
            return false;
        }
    }
    true
}

/// Whether a journal is legal, and its stamps rise where there are stamps.
pub(crate) fn is_journal(
    alloc: Global,
    asks: &[PlainList<Asked>],
    stamps: bool,
    marks: &[Mark],
    by_lane: ByLane,
) -> Result<bool, AllocError>
    requires { by_lane.told.now ≡ in_lanes (length asks.now) (places_in marks.now) }
    ensures { IfOk result (λ good. (context : ℕ)
        → by_lane.entry.asked.now ≡ asked_on (batch_from asks.now) context
        → good ≡ is_journal_of stamps (batch_from asks.now) context marks.now) }
{
    let legal = is_legal(alloc, asks, marks, by_lane)?;
    Ok(legal && (!stamps || stamps_rise(marks)))
}

// The first context whose journal is not, by the places of each, lane by lane.
fn first_broken(
    alloc: Global,
    asks: &[PlainList<Asked>],
    stamps: bool,
    journals: &[PlainList<Mark>],
    told: &[PlainList<Place>],
    asked: &[PlainList<Place>],
) -> Result<Option<u32>, AllocError>
    requires few { length journals.now < 2 ^ 32 }
    requires told_size { length told.now ≡ length journals.now }
    requires told { (c : ℕ) → c < length journals.now → slice_index_or told.now c []
        ≡ in_lanes (length asks.now) (places_in (marks_at journals.now c)) }
    requires asked_size { length asked.now ≡ length journals.now }
    requires asked { (c : ℕ) → c < length journals.now
        → slice_index_or asked.now c [] ≡ asked_on (batch_from asks.now) c }
    ensures { IfOk result (λ broken. broken
        ≡ broken_journal_of stamps (batch_from asks.now) 0 journals.now) }
{
    'journals: for (number, marks) in journals.iter().enumerate() {
        let places = told[number].as_slice();
        let due = asked[number].as_slice();
        let legal = is_journal(
            alloc,
            asks,
            stamps,
            marks.as_slice(),
            ByLane {
                told: places,
                asked: due,
            },
        )?;
        if !legal {
            return Ok(Some(number as u32));
        }
    }
    Ok(None)
}

// The first context whose journal is not.
fn broken_by(
    alloc: Global,
    asks: &[PlainList<Asked>],
    stamps: bool,
    journals: &[PlainList<Mark>],
) -> Result<Option<u32>, AllocError>
    requires within { AreFew asks.now }
    requires few { length journals.now < 2 ^ 32 }
    ensures { IfOk result (λ broken. broken
        ≡ broken_journal_of stamps (batch_from asks.now) 0 journals.now) }
{
    let asked = places_asked(alloc, asks, journals.len())?;
    let told = places_told(alloc, asks.len(), journals)?;
    first_broken(alloc, asks, stamps, journals, &told, &asked)
}

/// The first context whose journal is not legal, or has stamps that don't rise.
pub(crate) fn broken_journal(
    alloc: Global,
    plan: &Plan,
    contexts: &[Option<Context>],
    stamps: bool,
    journals: &[PlainList<Mark>],
) -> Result<Option<u32>, AllocError>
    requires within { IsWithinLimits plan.now }
    requires few { length journals.now < 2 ^ 32 }
    ensures { IfOk result (λ broken. broken
        ≡ broken_journal_of stamps (batch_of plan.now contexts.now) 0 journals.now) }
{
    let asks = asks_of(alloc, plan, contexts)?;
    broken_by(alloc, &asks, stamps, journals)
}
