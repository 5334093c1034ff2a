//! The rule of the lock's table, and what each atomic step tells its caller.

use crate::views::View;
use atomic_table::{Join, Play, Split, TableRule};
use call_places::Listed;
use std::snapshot::Snapshot;

// The table's key, which is fixed when it is made: how many passes there are, and the first value,
// as a snapshot of no bytes.
#[derive(Drop)]
pub struct About<V> {
    pub passes: u64,
    pub first: Snapshot<V>,
}

// The rule of `specs/Rule.antt`.
pub struct Tickets;

impl<V: Listed> TableRule<Option<V>, View, About<V>> for Tickets {
    ghost use Rattle.turn_lock.specs.Rule.{Kept};
    ghost use Rattle.turn_lock.specs.Steps.{first_view};

    ghost holds = { λ about s. Kept V.entries V.terms about.passes (V.terms about.first.value) s };

    ghost first = { λ about. first_view (V.terms about.first.value) };
}

// Takes the ticket that is given out next, where it is this one.
pub(crate) struct Ticket;

impl<V: Listed> Play<Option<V>, View> for Ticket {
    ghost use Rattle.turn_lock.specs.Steps.{TriedTicket};

    ghost then = { λ s before found after. TriedTicket s.first before found after };
}

// Marks that somebody sleeps, or that all are awake.
pub(crate) struct Mark;

impl<V: Listed> Play<Option<V>, View> for Mark {
    ghost use Rattle.turn_lock.specs.Steps.{Unchanged};

    ghost then = { λ _ before _ after. Unchanged before after };
}

// Looks at the turn, and takes the slot where it is its own.
pub(crate) struct Look;

impl<V: Listed> Play<Option<V>, View> for Look {
    ghost use Rattle.turn_lock.specs.Steps.{Looked};

    ghost then = { λ _ before found after. Looked V.entries V.terms before found after };
}

// Gives the slot back, and advances the turn.
pub(crate) struct Advance;

impl<V: Listed> Play<Option<V>, View> for Advance {
    ghost use Rattle.turn_lock.specs.Steps.{GaveValue};

    ghost then = { λ _ before _ after. GaveValue V.entries before after };
}

// One pass more.
pub(crate) struct Deal;

impl Split<View> for Deal {
    ghost use Rattle.turn_lock.specs.Steps.{staying_view, new_view};

    ghost left = { staying_view };

    ghost right = { new_view };
}

// One pass is taken in.
pub(crate) struct Gather;

impl Join<View> for Gather {
    ghost use Rattle.turn_lock.specs.Steps.{joined_view, spent_view};

    ghost both = { joined_view };

    ghost spent = { spent_view };
}
