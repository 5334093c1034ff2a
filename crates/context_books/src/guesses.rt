//! The law of guesses.

ghost use Rattle.std.specs.Prelude.{ℕ, ◌↔◌, ◌<◌, ◌≤◌, List};
ghost use Rattle.call_places.specs.declared.entries.Place.{Place};
ghost use Rattle.hpke_context.specs.Answers.{Cipher};
ghost use Rattle.context_books.specs.Batches.{Batch};
ghost use Rattle.context_books.specs.Legal.{Legal, OpensOn};
ghost use Rattle.context_books.specs.Guesses.{Guessed, least_guess, greatest_guess};

/// A guess of an opening may have been made exactly where it is from the number that is due just
/// after the last earlier place of the lane, or 0, up to the number that is due at the opening.
pub fn a_guess_lies_between()
    ensures { (batch : Batch) (context : ℕ) (c : Cipher) (journal : List Place)
        (lane call n guess : ℕ) → Legal batch context journal
        → OpensOn batch context lane call n → 0 < n
        → Guessed batch c journal lane call n guess
        ↔ ((least_guess batch c journal lane call ≤ guess)
        × (guess ≤ greatest_guess batch c journal lane call)) }
{}
