//! What the rule of the lock gives, and that each atomic step keeps it.

ghost use Rattle.std.specs.Prelude.{ℕ};
ghost use Rattle.call_places.specs.declared.listed.Terms.{Terms};
ghost use Rattle.turn_lock.specs.Laws.{TurnIsGivenOut, OneHolds, OneWaits, OneHasNumber, StepsKeep};

use call_places::Listed;

/// Under the rule the turn never passes the tickets, one seat at most holds the value, no two wait
/// with one ticket, and no two have one number.
///
/// A law of the definitions: the call does nothing.
pub fn the_rule_tells_seats_apart<V: Listed>()
    ensures turn { (passes : ℕ) (terms : Terms) → TurnIsGivenOut V.entries V.terms passes terms }
    ensures holder { (passes : ℕ) (terms : Terms) → OneHolds V.entries V.terms passes terms }
    ensures ticket { (passes : ℕ) (terms : Terms) → OneWaits V.entries V.terms passes terms }
    ensures number { (passes : ℕ) (terms : Terms) → OneHasNumber V.entries V.terms passes terms }
{}

/// The rule holds of a new lock, and each of the six kinds of step keeps it, whatever state of the
/// table it finds: so it holds between any two steps of whatever threads.
///
/// A law of the definitions: the call does nothing.
pub fn each_step_keeps_the_rule<V: Listed>()
    ensures { (passes : ℕ) (terms : Terms) → StepsKeep V.entries V.terms passes terms }
{}
