//! The core tried on a small batch of two lanes, with an opening of two messages. The checker
//! computes each row.

ghost use Rattle.std.specs.Prelude.{◌≡◌, ◌∷◌, []};
ghost use Rattle.context_books.specs.Rows.{in_time, too_early, stamped};
ghost use Rattle.context_core.specs.Core.{journal};
ghost use Rattle.context_core.specs.ScheduleRows.{after, journals_after, guesses_after};
ghost use Rattle.context_core.specs.ScheduleRows.{seal_in_between, overtaking, lane_1_first};

/// Without events lane 0 does all its steps, and then lane 1; so it is after events of lanes that
/// are not there. A seal of lane 1 may come between lane 0's steps, but not inside its opening.
pub fn rows_of_histories()
    ensures one_by_one { journals_after [] ≡ stamped 0 3 1 2 4 }
    ensures not_there { journals_after (2 ∷ 9 ∷ []) ≡ stamped 0 3 1 2 4 }
    ensures in_between { journals_after seal_in_between ≡ stamped 0 1 2 3 4 }
{}

/// The guess of lane 0's opening is the number that was due when it guessed, also where lane 1
/// opens its message before lane 0's places stand.
pub fn rows_of_guesses()
    ensures alone { guesses_after [] ≡ (0 ∷ []) ∷ [] ∷ [] }
    ensures alone_journal { journal (after []) 1 ≡ too_early }
    ensures overtaken { guesses_after overtaking ≡ (0 ∷ []) ∷ [] ∷ [] }
    ensures overtaken_journal { journal (after overtaking) 1 ≡ in_time }
    ensures behind { guesses_after lane_1_first ≡ (1 ∷ []) ∷ [] ∷ [] }
    ensures behind_journal { journal (after lane_1_first) 1 ≡ in_time }
{}
