//! All journals as one history.

ghost use Rattle.std.specs.Prelude.{◌≡◌, ◌<◌, ◌^◌, ◌+◌, length, map, IfOk, OnOk};
ghost use Rattle.std.specs.List.{list_all, range_with_len};
ghost use Rattle.context_books.specs.Histories.{all_stamps, journals_of};
ghost use Rattle.context_books.specs.Checks.{are_same as are_same_by, is_same_mark};
ghost use Rattle.context_books.specs.Checks.{is_history as is_history_of};
ghost use Rattle.context_books.specs.Checks.{is_legal_history, has_lane_spots};
ghost use Rattle.batch_plans.specs.Within.{IsWithinLimits};
ghost use Rattle.context_books.specs.Asks.{batch_of};
ghost use Rattle.journal_check.specs.Asks.{AreFew, batch_from};
ghost use Rattle.journal_check.specs.Histories.{Puts, PutsAll, is_within};

use crate::asks::{Asked, asks_of};
use crate::dealing::{lanes_asked, lanes_in, marks_of};
use crate::journals::is_unbroken;
use crate::same::are_same;
use crate::spots::Spot;
use batch_plans::{PlainList, Plan};
use call_places::{Mark, Place};
use hpke_context::Context;
use std::alloc::{AllocError, Global};

// So many spots more, whatever they are.
fn push_some(spots: &mut Vec<Spot>, count: usize) -> Result<(), AllocError>
    ensures { OnOk result (length spots.new.items ≡ length spots.old.items + count) }
{
    'spots: for _spot in 0..count {
        let place = Place {
            lane: 0,
            call: 0,
            item: 0,
        };
        spots.push(Spot::new(0, place))?;
    }
    Ok(())
}

// A spot for each place of the journals, whatever it is.
fn one_each(alloc: Global, journals: &[PlainList<Mark>]) -> Result<Vec<Spot>, AllocError>
    ensures { IfOk result (λ spots. length spots.items ≡ length (all_stamps journals.now)) }
{
    let mut spots = Vec::new(alloc);
    'journals: for marks in journals {
        push_some(&mut spots, marks.as_slice().len())?;
    }
    Ok(spots)
}

// Puts the places of a journal where their stamps say.
fn put_journal(history: &mut [Spot], context: u32, marks: &[Mark])
    ensures { Puts history.old history.new context marks.now }
{
    'marks: for mark in marks {
        let at = mark.stamp as usize;
        if at < history.len() {
            history[at] = Spot::new(context, mark.place);
        }
    }
}

// Puts those of all journals.
fn put_journals(history: &mut [Spot], journals: &[PlainList<Mark>])
    requires { length journals.now < 2 ^ 32 }
    ensures { PutsAll history.old history.new 0 journals.now }
{
    'journals: for (context, marks) in journals.iter().enumerate() {
        put_journal(history, context as u32, marks.as_slice());
    }
}

// Whether each journal has the places of its context, each with its index as its stamp.
fn has_journals(
    alloc: Global,
    history: &[Spot],
    journals: &[PlainList<Mark>],
) -> Result<bool, AllocError>
    ensures { IfOk result (λ good. good ≡ are_same_by (are_same_by is_same_mark) journals.now
        (journals_of (length journals.now) history.now)) }
{
    let given = marks_of(alloc, history, journals.len())?;
    Ok(are_same(journals, &given))
}

// Whether each lane has the places that it asks for, in order.
fn has_lanes(alloc: Global, asks: &[PlainList<Asked>], history: &[Spot]) -> Result<bool, AllocError>
    requires { AreFew asks.now }
    ensures { IfOk result (λ good. good
        ≡ list_all (has_lane_spots (batch_from asks.now) history.now)
        (range_with_len 0 (length asks.now))) }
{
    let asked = lanes_asked(alloc, asks)?;
    let told = lanes_in(alloc, history, asks.len())?;
    Ok(are_same(&told, &asked))
}

// Whether each place is on one of so many contexts, and of one of so many lanes.
fn are_within(history: &[Spot], contexts: usize, lanes: usize) -> bool
    ensures { result ≡ list_all (is_within contexts lanes) history.now }
{
    'history: for spot in history {
        if spot.context() as usize >= contexts || spot.place().lane as usize >= lanes {
            return false;
        }
    }
    true
}

fn places_of(alloc: Global, history: &[Spot]) -> Result<Vec<Place>, AllocError>
    ensures { IfOk result (λ places. places.items ≡ map (λ s. s.place) history.now) }
{
    history.iter().map(|spot| spot.place()).collect(alloc)
}

// Whether a list of places of so many contexts is a history of the batch.
fn is_history(
    alloc: Global,
    asks: &[PlainList<Asked>],
    count: usize,
    history: &[Spot],
) -> Result<bool, AllocError>
    requires { AreFew asks.now }
    ensures { IfOk result (λ good. good
        ≡ is_history_of (batch_from asks.now) count history.now) }
{
    if !are_within(history, count, asks.len()) {
        return Ok(false);
    }
    if !has_lanes(alloc, asks, history)? {
        return Ok(false);
    }
    let places = places_of(alloc, history)?;
    Ok(is_unbroken(asks, &places))
}

// Whether the stamps make one history of all journals. The spots, one for each place, are written
// over.
fn judge(
    alloc: Global,
    asks: &[PlainList<Asked>],
    journals: &[PlainList<Mark>],
    history: &mut [Spot],
) -> Result<bool, AllocError>
    requires within { AreFew asks.now }
    requires few { length journals.now < 2 ^ 32 }
    requires size { length history.old ≡ length (all_stamps journals.now) }
    ensures { IfOk result (λ good. good
        ≡ is_legal_history (batch_from asks.now) journals.now) }
{
    put_journals(history, journals);
    let given = has_journals(alloc, history, journals)?;
    if !given {
        return Ok(false);
    }
    is_history(alloc, asks, journals.len(), history)
}

/// Whether the stamps make one history of all journals.
pub(crate) fn is_history_by(
    alloc: Global,
    asks: &[PlainList<Asked>],
    journals: &[PlainList<Mark>],
) -> Result<bool, AllocError>
    requires within { AreFew asks.now }
    requires few { length journals.now < 2 ^ 32 }
    ensures { IfOk result (λ good. good
        ≡ is_legal_history (batch_from asks.now) journals.now) }
{
    let mut history = one_each(alloc, journals)?;
    judge(alloc, asks, journals, &mut history)
}

/// Whether the stamps make one history of all journals.
pub(crate) fn is_one_history(
    alloc: Global,
    plan: &Plan,
    contexts: &[Option<Context>],
    journals: &[PlainList<Mark>],
) -> Result<bool, AllocError>
    requires within { IsWithinLimits plan.now }
    requires few { length journals.now < 2 ^ 32 }
    ensures { IfOk result (λ good. good
        ≡ is_legal_history (batch_of plan.now contexts.now) journals.now) }
{
    let asks = asks_of(alloc, plan, contexts)?;
    is_history_by(alloc, &asks, journals)
}
