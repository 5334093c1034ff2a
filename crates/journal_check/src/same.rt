//! Values and lists that are the same.

ghost use Rattle.std.specs.Prelude.{◌≡◌};
ghost use Rattle.context_books.specs.Legal.{is_same_place};
ghost use Rattle.context_books.specs.Checks.{are_same as are_same_by, is_same_spot, is_same_mark};

use crate::spots::Spot;
use batch_plans::PlainList;
use call_places::{Mark, Place};

/// Values with a test of which are the same.
pub(crate) trait Same {
    ghost use Rattle.std.specs.Prelude.{Bool, ◌≡◌};

    // The test.
    ghost same: { Self → Self → Bool };

    /// Whether this value is the same as that one.
    fn is_same(&self, other: &Self) -> bool
        ensures { result ≡ same self.now other.now };
}

impl Same for Place {
    ghost same = { is_same_place };

    fn is_same(&self, other: &Place) -> bool {
        self.lane == other.lane && self.call == other.call && self.item == other.item
    }
}

impl Same for Spot {
    ghost same = { is_same_spot };

    fn is_same(&self, other: &Spot) -> bool {
        self.context == other.context && self.place.is_same(&other.place)
    }
}

impl Same for Mark {
    ghost same = { is_same_mark };

    fn is_same(&self, other: &Mark) -> bool {
        self.place.is_same(&other.place) && self.stamp == other.stamp
    }
}

impl<T: Same> Same for PlainList<T> {
    ghost same = { are_same_by T.same };

    fn is_same(&self, other: &PlainList<T>) -> bool {
        are_same(self.as_slice(), other.as_slice())
    }
}

/// Whether the values of two lists are the same, one by one.
pub(crate) fn are_same<T: Same>(values: &[T], others: &[T]) -> bool
    ensures { result ≡ are_same_by T.same values.now others.now }
{
    if values.len() != others.len() {
        return false;
    }
    'values: for i in 0..values.len() {
        if !values[i].is_same(&others[i]) {
            return false;
        }
    }
    true
}
