//! The passes of a lock that are with nobody.

ghost use Rattle.std.specs.Prelude.{ℕ, ◌≡◌, ◌≤◌, ◌<◌, ◌++◌, ◌∷◌, [], ◌↔◌, length, remove, slice_get, slice_index_or, All, Some, IsNone, IfSome, IfNone};
ghost use Rattle.turn_lock.specs.Passes.{PassView};

use crate::passes::Pass;
use std::marker::Model;

/// The passes of a lock that nobody has. Contracts see them in a list, and how many there were when
/// the list was made.
///
/// It keeps room for as many as that, so a pass can be put back without memory.
#[derive(Drop)]
pub struct PassList {
    pub(crate) passes: Vec<Pass>,
    pub(crate) made: usize,
}

impl Model for PassList {
    ghost use Rattle.std.specs.Prelude.{◌≤◌, vec_capacity};
    ghost use Rattle.turn_lock.specs.Passes.{PassListView};

    ghost Value = { PassListView };

    ghost view = { λ l. record { passes = l.passes.items; made = l.made } };

    ghost invariant = { λ l. l.made ≤ vec_capacity l.passes };
}

impl PassList {
    /// Takes the pass with the lowest number out of the list. `None` says that none is left.
    pub fn take(&mut self) -> Option<Pass>
        ensures none { IsNone result ↔ (self.old.passes ≡ []) }
        ensures taken { IfSome result (λ p. (i : ℕ) × (slice_get self.old.passes i ≡ Some p)
            × (self.new.passes ≡ remove self.old.passes i)) }
        ensures lowest { IfSome result (λ p. All (λ q. p.number ≤ q.number) self.old.passes) }
        ensures left { IfNone result (self.new.passes ≡ []) }
        ensures made { self.new.made ≡ self.old.made }
    {
        if self.passes.is_empty() {
            return None;
        }
        let lowest = lowest_of(self.passes.as_slice());
        Some(self.passes.remove(lowest))
    }

    /// Puts a pass into the room that one left, at the end of the list.
    ///
    /// The pass may be another lock's; `close` asks that none is.
    pub fn put(&mut self, pass: Pass)
        requires { length self.old.passes < self.old.made }
        ensures passes { self.new.passes ≡ self.old.passes ++ pass ∷ [] }
        ensures made { self.new.made ≡ self.old.made }
    {
        self.passes.push_reserved(pass);
    }
}

// Where the pass with the lowest number stands.
fn lowest_of(passes: &[Pass]) -> usize
    requires { 0 < length passes.now }
    ensures place { result < length passes.now }
    ensures lowest { (d : PassView)
        → All (λ q. (slice_index_or passes.now result d).number ≤ q.number) passes.now }
{
    let mut lowest = 0;
    for i in 1..passes.len() {
        if passes[i].number() < passes[lowest].number() {
            lowest = i;
        }
    }
    lowest
}
