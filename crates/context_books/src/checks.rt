//! The tests of journals and guesses pass exactly where the definitions hold.

ghost use Rattle.std.specs.Prelude.{ℕ, ◌↔◌, ◌<◌, List, IsTrue};
ghost use Rattle.call_places.specs.declared.entries.Place.{Place};
ghost use Rattle.call_places.specs.declared.entries.Mark.{Mark};
ghost use Rattle.hpke_context.specs.Answers.{Cipher};
ghost use Rattle.context_books.specs.Batches.{Batch};
ghost use Rattle.context_books.specs.Legal.{Legal, OpensOn};
ghost use Rattle.context_books.specs.Guesses.{Guessed};
ghost use Rattle.context_books.specs.Histories.{LegalHistory};
ghost use Rattle.context_books.specs.Checks.{is_legal, is_legal_history, is_guessed};

/// The test of a journal passes exactly where it is legal.
pub fn a_legal_journal_is_told()
    ensures { (batch : Batch) (context : ℕ) (journal : List Place)
        → IsTrue (is_legal batch context journal) ↔ Legal batch context journal }
{}

/// The test of a guess in a legal journal passes exactly where it may have been made.
pub fn a_guess_is_told()
    ensures { (batch : Batch) (context : ℕ) (c : Cipher) (journal : List Place)
        (lane call n guess : ℕ) → Legal batch context journal
        → OpensOn batch context lane call n → 0 < n
        → IsTrue (is_guessed batch c journal lane call guess)
        ↔ Guessed batch c journal lane call n guess }
{}

/// The test of all journals passes exactly where they are a legal history.
pub fn a_legal_history_is_told()
    ensures { (batch : Batch) (journals : List (List Mark))
        → IsTrue (is_legal_history batch journals) ↔ LegalHistory batch journals }
{}
