//! The token of one caller of a lock.

ghost use Rattle.std.specs.Prelude.{◌≡◌};
ghost use Rattle.call_places.specs.Entries.{own, CallsWithin};
ghost use Rattle.turn_lock.specs.Passes.{fresh_pass};
ghost use Rattle.turn_lock.specs.Seats.{IsSeatOf, IsFresh, terms_of};

use crate::views::View;
use atomic_table::{Badge, Seat};
use std::marker::Model;

/// The token of one caller of a lock. The lock has one pass with each number.
///
/// Contracts see its lock, its number, the entries that it has seen, how many turns it took, and
/// its next call. The entries whose lane is its number are its own: no other pass adds one.
#[derive(Drop)]
pub struct Pass {
    pub(crate) badge: Badge<View>,
    pub(crate) number: u32,
    pub(crate) turns: u32,
    pub(crate) next_call: u32,
}

impl Model for Pass {
    ghost use Rattle.turn_lock.specs.Passes.{PassView};
    ghost use Rattle.turn_lock.specs.Seats.{seen_of, terms_of, IsIdle};

    ghost Value = { PassView };

    ghost view = { λ p. record {
      lock = record { table = p.badge.table_id; terms = terms_of p.badge.views };
      number = p.number;
      seen = seen_of p.badge.views;
      turns = p.turns;
      next_call = p.next_call;
    } };

    ghost invariant = { λ p. IsIdle p.badge.views p.number p.turns p.next_call };
}

impl Pass {
    // A pass that has taken no turn.
    pub(crate) fn fresh(badge: Badge<View>, number: u32) -> Pass
        requires { IsFresh badge.views number }
        ensures { result
            ≡ fresh_pass (record { table = badge.table_id; terms = terms_of badge.views }) number }
    {
        Pass {
            badge,
            number,
            turns: 0,
            next_call: 0,
        }
    }

    // The seat that the pass's turns are taken with.
    pub(crate) fn into_seat<S>(self) -> Seat<S, View>
        ensures { IsSeatOf self result.table_id result.me }
    {
        let Pass {
            badge,
            number: _,
            turns: _,
            next_call: _,
        } = self;
        badge.into_seat()
    }

    /// The pass's number, counted from 0: the lane of its own entries.
    pub fn number(&self) -> u32
        ensures { result ≡ self.now.number }
    {
        self.number
    }

    /// How many turns the pass has taken. It may take 2^32 - 1, so that no ticket comes twice.
    pub fn turns(&self) -> u32
        ensures { result ≡ self.now.turns }
    {
        self.turns
    }

    /// The lowest call that the pass may add entries of: each of its own entries has a lower one.
    pub fn next_call(&self) -> u32
        ensures value { result ≡ self.now.next_call }
        ensures above { CallsWithin 0 result (own self.now.number self.now.seen) }
    {
        self.next_call
    }
}
