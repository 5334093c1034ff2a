//! What is shown, tried on two lanes of one context, with an opening of two messages.

ghost use Rattle.context_books.specs.Rows.{toy};
ghost use Rattle.lane_workers.specs.Showing.{AllShown};
ghost use Rattle.lane_workers.specs.ShowingRows.{overtaken, shown};

/// Two lanes show this of their context: lane 1's message opened first, and lane 0's guess of 0
/// missed both of its items. So the laws of what is shown speak of something.
pub fn rows_of_showings()
    ensures { AllShown overtaken (λ context. toy) shown }
{}
