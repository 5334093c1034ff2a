//! The value, while a pass holds it.

ghost use Rattle.std.specs.Prelude.{◌≡◌};

use crate::views::View;
use atomic_table::Seat;
use std::marker::Model;

/// The value of a lock, while a pass has its turn. Contracts see what was known of the pass, the
/// value as it stands, and the entries that it had when it was taken.
///
/// It can't be let go: only [`leave`](crate::TurnLock::leave) takes it back. Until then no other
/// pass gets a turn.
pub struct Held<V> {
    pub(crate) seat: Seat<Option<V>, View>,
    pub(crate) ticket: u64,
    pub(crate) number: u32,
    pub(crate) turns: u32,
    pub(crate) next_call: u32,
    pub(crate) value: V,
}

impl<V> Model for Held<V> {
    ghost use Rattle.turn_lock.specs.Passes.{HeldView};
    ghost use Rattle.turn_lock.specs.Seats.{IsHolding, seen_in};

    ghost Value = { HeldView V };

    ghost view = { λ h. record {
      lock = record { table = h.seat.table_id; terms = h.seat.me.0.terms };
      number = h.number;
      seen = seen_in h.seat.me.0.parts;
      turns = h.turns;
      next_call = h.next_call;
      value = h.value;
    } };

    ghost invariant = { λ h. IsHolding h.seat.me h.ticket h.number h.turns h.next_call };
}

impl<V> Held<V> {
    ghost use Rattle.std.specs.Borrow.{Lends, sem};
    ghost use Rattle.turn_lock.specs.contracts.held.Held.{the_row};

    /// The value, to read and to write. What may be written is said where it is given back.
    pub fn value(&mut self) -> &mut V
        ensures* writes_back { sem 𝓛 (Lends (the_row V.row) V.row self.entry result
            (λ w. record self.old { value = w })) }
        ensures value { result.now ≡ self.old.value }
    {
        &mut self.value
    }
}
