//! Places that are dealt to piles, by the number of a context or of a lane.
//!
//! The plain form of the test of a journal takes each lane, finds its places in the journal, and
//! compares them with those that the lane asks for on the context: each lane is walked once for each
//! context, and each journal once for each lane. Here all lanes are walked once, and each place that
//! they ask for goes onto the pile of its context; the places of all journals go onto the piles of
//! their lanes, and from there, lane by lane, onto those of their contexts. Of a context both piles
//! then hold the places lane by lane, and they are the same exactly where those of each lane are:
//! `lanes_same` (proofs/Dealt.antt) says so, and `told_on` and `asked_lie` what lies on a pile. A
//! history is dealt in the same way, once by lanes (`lanes_pass`) and once by contexts
//! (`stamped_empty`).

ghost use Rattle.std.specs.Prelude.{ℕ, ◌≡◌, ◌<◌, ◌++◌, ◌^◌, [], length, replicate, slice_index_or};
ghost use Rattle.std.specs.Prelude.{IfOk, OnOk};
ghost use Rattle.context_books.specs.Batches.{spots as spots_of};
ghost use Rattle.context_books.specs.Histories.{places, marks_at, journals_of};
ghost use Rattle.journal_check.specs.Asks.{AreFew, batch_from};
ghost use Rattle.journal_check.specs.Piles.{by_context, joined, spots_told as spots_told_of};
ghost use Rattle.journal_check.specs.Piles.{in_lanes, lanes_told, lanes_asked as lanes_asked_of};
ghost use Rattle.journal_check.specs.Piles.{put_on, asked_on};

use crate::asks::Asked;
use crate::spots::{Spot, spots_on};
use batch_plans::PlainList;
use call_places::{Mark, Place};
use std::alloc::{AllocError, Global};

// So many empty piles.
fn empty_piles<T: Drop>(alloc: Global, count: usize) -> Result<Vec<PlainList<T>>, AllocError>
    ensures { IfOk result (λ piles. piles.items ≡ replicate count []) }
{
    let mut piles = Vec::new(alloc);
    'piles: for _pile in 0..count {
        piles.push(PlainList::new(alloc))?;
    }
    Ok(piles)
}

// Puts an item onto the pile of this number, where there is one.
fn put<T: Drop>(piles: &mut [PlainList<T>], number: usize, item: T) -> Result<(), AllocError>
    ensures { OnOk result (piles.new ≡ put_on piles.old number item) }
{
    if number < piles.len() {
        piles[number].push(item)?;
    }
    Ok(())
}

// Deals places to the piles of their contexts.
fn deal_places(piles: &mut [PlainList<Place>], spots: &[Spot]) -> Result<(), AllocError>
    ensures { OnOk result (piles.new ≡ by_context piles.old spots.now) }
{
    'spots: for spot in spots {
        put(piles, spot.context() as usize, spot.place())?;
    }
    Ok(())
}

// The places of lists of spots on each of so many contexts, one list after another.
fn on_contexts(
    alloc: Global,
    lists: &[PlainList<Spot>],
    count: usize,
) -> Result<Vec<PlainList<Place>>, AllocError>
    ensures { IfOk result (λ piles.
        piles.items ≡ by_context (replicate count []) (joined lists.now)) }
{
    let mut piles = empty_piles(alloc, count)?;
    'lists: for list in lists {
        deal_places(&mut piles, list.as_slice())?;
    }
    Ok(piles)
}

/// The spots of a history in each of so many lanes.
pub(crate) fn lanes_in(
    alloc: Global,
    history: &[Spot],
    count: usize,
) -> Result<Vec<PlainList<Spot>>, AllocError>
    ensures { IfOk result (λ lanes. lanes.items ≡ lanes_told count history.now) }
{
    let mut lanes = empty_piles(alloc, count)?;
    'history: for spot in history {
        let place = spot.place();
        put(
            &mut lanes,
            place.lane as usize,
            Spot::new(spot.context(), place),
        )?;
    }
    Ok(lanes)
}

/// The journals that a history of so many contexts gives: each place has its index as its stamp.
pub(crate) fn marks_of(
    alloc: Global,
    history: &[Spot],
    count: usize,
) -> Result<Vec<PlainList<Mark>>, AllocError>
    ensures { IfOk result (λ piles. piles.items ≡ journals_of count history.now) }
{
    let mut piles = empty_piles(alloc, count)?;
    'history: for (stamp, spot) in history.iter().enumerate() {
        let mark = Mark {
            place: spot.place(),
            stamp: stamp as u64,
        };
        put(&mut piles, spot.context() as usize, mark)?;
    }
    Ok(piles)
}

// The spots of a journal, behind those that are there.
fn push_journal(spots: &mut Vec<Spot>, context: u32, marks: &[Mark]) -> Result<(), AllocError>
    ensures { OnOk result
        (spots.new.items ≡ spots.old.items ++ spots_of context (places marks.now)) }
{
    'marks: for mark in marks {
        spots.push(Spot::new(context, mark.place))?;
    }
    Ok(())
}

// The spots of all journals, one journal after another.
fn spots_told(alloc: Global, journals: &[PlainList<Mark>]) -> Result<Vec<Spot>, AllocError>
    requires { length journals.now < 2 ^ 32 }
    ensures { IfOk result (λ spots. spots.items ≡ spots_told_of 0 journals.now) }
{
    let mut spots = Vec::new(alloc);
    'journals: for (context, marks) in journals.iter().enumerate() {
        push_journal(&mut spots, context as u32, marks.as_slice())?;
    }
    Ok(spots)
}

/// The places of each journal, lane by lane.
pub(crate) fn places_told(
    alloc: Global,
    lanes: usize,
    journals: &[PlainList<Mark>],
) -> Result<Vec<PlainList<Place>>, AllocError>
    requires { length journals.now < 2 ^ 32 }
    ensures size { IfOk result (λ piles. length piles.items ≡ length journals.now) }
    ensures each { IfOk result (λ piles. (c : ℕ) → c < length journals.now
        → slice_index_or piles.items c [] ≡ in_lanes lanes (places (marks_at journals.now c))) }
{
    let spots = spots_told(alloc, journals)?;
    let lists = lanes_in(alloc, &spots, lanes)?;
    on_contexts(alloc, &lists, journals.len())
}

/// The spots that each lane asks for.
pub(crate) fn lanes_asked(
    alloc: Global,
    asks: &[PlainList<Asked>],
) -> Result<Vec<PlainList<Spot>>, AllocError>
    requires { AreFew asks.now }
    ensures { IfOk result (λ lanes. lanes.items ≡ lanes_asked_of (batch_from asks.now)) }
{
    let mut lists = Vec::new(alloc);
    'lanes: for (lane, calls) in asks.iter().enumerate() {
        let spots = spots_on(alloc, lane as u32, calls.as_slice())?;
        lists.push(PlainList::from_vec(spots))?;
    }
    Ok(lists)
}

/// The places that all lanes ask for on each of so many contexts, lane by lane.
pub(crate) fn places_asked(
    alloc: Global,
    asks: &[PlainList<Asked>],
    count: usize,
) -> Result<Vec<PlainList<Place>>, AllocError>
    requires { AreFew asks.now }
    ensures size { IfOk result (λ piles. length piles.items ≡ count) }
    ensures each { IfOk result (λ piles. (c : ℕ) → c < count
        → slice_index_or piles.items c [] ≡ asked_on (batch_from asks.now) c) }
{
    let lists = lanes_asked(alloc, asks)?;
    on_contexts(alloc, &lists, count)
}
