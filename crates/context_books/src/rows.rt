//! The definitions tried on a small batch of two lanes, with an opening of two messages. The
//! checker computes each row.

ghost use Rattle.std.specs.Prelude.{◌≡◌, ◌∷◌, [], true, false};
ghost use Rattle.call_places.specs.declared.entries.Step.TheVariants.{Opened, Failed, OpenLimit};
ghost use Rattle.hpke_context.specs.Answers.{Opened_at, Failed_at};
ghost use Rattle.context_books.specs.Batches.{place};
ghost use Rattle.context_books.specs.Legal.{replies};
ghost use Rattle.context_books.specs.Entries.{steps_from, numbers_from};
ghost use Rattle.context_books.specs.Guesses.{missed, missed_in};
ghost use Rattle.context_books.specs.Checks.{is_legal, is_legal_history, is_guessed};
ghost use Rattle.context_books.specs.Rows.{toy, opening, two_lanes, two_openings, in_time};
ghost use Rattle.context_books.specs.Rows.{too_early, all_three, torn, stamped};

/// Journals of the opening context: legal in both orders of the lanes, and not where a place is
/// left out, stands twice, out of its lane's order, or inside the opening of two.
pub fn rows_of_journals()
    ensures in_time { is_legal two_lanes 1 in_time ≡ true }
    ensures too_early { is_legal two_lanes 1 too_early ≡ true }
    ensures left_out { is_legal two_lanes 1 (place 0 1 0 ∷ place 0 1 1 ∷ []) ≡ false }
    ensures twice { is_legal two_lanes 1 (place 1 1 0 ∷ too_early) ≡ false }
    ensures other_context { is_legal two_lanes 1 (place 1 0 0 ∷ in_time) ≡ false }
    ensures out_of_order { is_legal two_lanes 1 (place 1 1 0 ∷ place 0 1 1 ∷ place 0 1 0 ∷ [])
        ≡ false }
    ensures torn { is_legal two_lanes 1 torn ≡ false }
{}

/// Answers along both journals: in time all three open, and too early two tags fail, so that the
/// number stays.
pub fn rows_of_replies()
    ensures in_time { replies two_lanes toy in_time
        ≡ Opened_at 0 [] ∷ Opened_at 1 [] ∷ Opened_at 2 [] ∷ [] }
    ensures too_early { replies two_lanes toy too_early
        ≡ Failed_at 0 ∷ Failed_at 0 ∷ Opened_at 0 [] ∷ [] }
    ensures steps { steps_from toy 8 (opening 8 ∷ opening 8 ∷ opening 9 ∷ [])
        ≡ Opened ∷ Failed ∷ OpenLimit ∷ [] }
    ensures numbers { numbers_from toy 8 (opening 8 ∷ opening 8 ∷ opening 9 ∷ [])
        ≡ 8 ∷ 9 ∷ 9 ∷ [] }
{}

/// Guesses of the opening of two. In time its block begins at number 1: it may have guessed 0,
/// which misses both items, or 1, which misses none. Too early it can only have guessed 0; its
/// second item stands at 0 too, which is still in that item's window. A lane's second opening
/// guesses no number from before its first. Six items that all stand at 0 leave the windows of a
/// guess of 0 at the fifth.
pub fn rows_of_guesses()
    ensures least { is_guessed two_lanes toy in_time 0 1 0 ≡ true }
    ensures greatest { is_guessed two_lanes toy in_time 0 1 1 ≡ true }
    ensures above { is_guessed two_lanes toy in_time 0 1 2 ≡ false }
    ensures alone { is_guessed two_lanes toy too_early 0 1 1 ≡ false }
    ensures not_before { is_guessed two_openings toy all_three 0 1 1 ≡ false }
    ensures after_first { is_guessed two_openings toy all_three 0 1 2 ≡ true }
    ensures stale { missed_in two_lanes toy in_time 0 1 2 0 ≡ 2 }
    ensures true_guess { missed_in two_lanes toy in_time 0 1 2 1 ≡ 0 }
    ensures window { missed_in two_lanes toy too_early 0 1 2 0 ≡ 0 }
    ensures six { missed 0 0 (0 ∷ 0 ∷ 0 ∷ 0 ∷ 0 ∷ 0 ∷ []) ≡ 2 }
    ensures far { missed 9 0 (0 ∷ 1 ∷ 2 ∷ []) ≡ 3 }
{}

/// Stamps of both journals: one history, and none where a stamp is given twice, each journal counts
/// from 0, stamps fall, a lane's second call comes before its first, or another journal's stamp
/// parts the opening.
pub fn rows_of_histories()
    ensures one_history { is_legal_history two_lanes (stamped 0 1 2 3 4) ≡ true }
    ensures between { is_legal_history two_lanes (stamped 0 3 1 2 4) ≡ true }
    ensures twice { is_legal_history two_lanes (stamped 0 2 2 3 4) ≡ false }
    ensures from_0_in_each { is_legal_history two_lanes (stamped 0 1 0 1 2) ≡ false }
    ensures skipped { is_legal_history two_lanes (stamped 0 1 2 3 5) ≡ false }
    ensures falling { is_legal_history two_lanes (stamped 0 1 3 2 4) ≡ false }
    ensures lane_out_of_order { is_legal_history two_lanes (stamped 2 3 0 1 4) ≡ false }
    ensures torn { is_legal_history two_lanes (stamped 0 2 1 3 4) ≡ false }
{}
