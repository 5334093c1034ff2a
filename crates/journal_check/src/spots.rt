//! Places in the journals of contexts.

ghost use Rattle.std.specs.Prelude.{◌≡◌, ◌<◌, ◌^◌, ◌++◌, length, IfOk, OnOk};
ghost use Rattle.context_books.specs.Batches.{block, spots as spots_of};
ghost use Rattle.journal_check.specs.Histories.{spots_asked, spots_from};

use crate::asks::Asked;
use call_places::Place;
use std::alloc::{AllocError, Global};
use std::marker::Model;

/// A place in the journal of a context.
#[derive(Drop)]
pub(crate) struct Spot {
    pub(crate) context: u32,
    pub(crate) place: Place,
}

impl Model for Spot {
    ghost Value = { Rattle.context_books.specs.Batches.Spot };

    ghost view = { λ s. record { context = s.context; place = s.place } };
}

impl Spot {
    pub(crate) fn new(context: u32, place: Place) -> Spot
        ensures { result ≡ record { context = context; place = place } }
    {
        Spot { context, place }
    }

    pub(crate) fn context(&self) -> u32
        ensures { result ≡ self.now.context }
    {
        self.context
    }

    pub(crate) fn place(&self) -> Place
        ensures { result ≡ self.now.place }
    {
        self.place
    }
}

// The places of a call, in the journal of this context.
fn push_block(
    spots: &mut Vec<Spot>,
    context: u32,
    lane: u32,
    call: u32,
    count: u32,
) -> Result<(), AllocError>
    ensures { OnOk result
        (spots.new.items ≡ spots.old.items ++ spots_of context (block lane call 0 count)) }
{
    'items: for item in 0..count {
        let place = Place { lane, call, item };
        spots.push(Spot::new(context, place))?;
    }
    Ok(())
}

// The places of a call.
fn push_spots(spots: &mut Vec<Spot>, lane: u32, number: u32, asked: Asked) -> Result<(), AllocError>
    ensures { OnOk result
        (spots.new.items ≡ spots.old.items ++ spots_asked lane number asked) }
{
    push_block(spots, asked.context, lane, number, asked.count)
}

/// The places that the calls of a lane ask for, in order.
pub(crate) fn spots_on(alloc: Global, lane: u32, calls: &[Asked]) -> Result<Vec<Spot>, AllocError>
    requires { length calls.now < 2 ^ 32 }
    ensures { IfOk result (λ spots. spots.items ≡ spots_from lane 0 calls.now) }
{
    let mut spots = Vec::new(alloc);
    'calls: for (number, asked) in calls.iter().enumerate() {
        push_spots(&mut spots, lane, number as u32, *asked)?;
    }
    Ok(spots)
}
