//! The stamps of one turn.

ghost use Rattle.std.specs.Prelude.{◌≡◌, ◌+◌, ◌-◌, ◌≤◌, ◌++◌, List};
ghost use Rattle.std.specs.List.{range_with_len};
ghost use Rattle.call_places.specs.declared.entries.Entry.{Entry};
ghost use Rattle.call_places.specs.Entries.{StampsBelow};
ghost use Rattle.stamp_counter.specs.Stamps.{IsNote, ComesAfter};

use crate::counter::StampCounter;
use crate::seats::StampSeat;

/// Draws so many stamps for the list whose seat is `own`. They follow one another, from the answer's
/// number on, and come after all that `lane` knows. The seat that comes back for the lane knows of
/// them.
pub fn draw_stamps(
    counter: &StampCounter,
    own: &mut StampSeat,
    lane: StampSeat,
    count: u32,
) -> (u64, StampSeat)
    requires own { (own.old.counter ≡ counter.now.id) × (count ≤ own.old.left) }
    requires lane { IsNote counter.now.id lane }
    ensures own { own.new ≡ record {
      counter = counter.now.id;
      low = result.0 + count;
      drawn = own.old.drawn ++ range_with_len result.0 count;
      left = own.old.left - count;
    } }
    ensures least { own.old.low ≤ result.0 }
    ensures most { result.0 + count ≤ 1048576 }
    ensures after { (before : List Entry) → StampsBelow own.old.low before
        → ComesAfter counter.now.id lane result.1 before result.0 count }
{
    counter.join(own, lane);
    let first = counter.draw(own, count);
    (first, counter.note(own))
}
