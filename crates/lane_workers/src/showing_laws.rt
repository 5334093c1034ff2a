//! What holds of all contexts, once every lane has shown its part of them.

ghost use Rattle.std.specs.Prelude.{ℕ, ◌≡◌, ◌<◌, length, Contains, Some};
ghost use Rattle.call_places.specs.declared.entries.Place.{Place};
ghost use Rattle.hpke_context.specs.Answers.{Cipher};
ghost use Rattle.context_books.specs.Batches.{Batch, lane_of};
ghost use Rattle.context_books.specs.Legal.{Legal, OpensOn, reply_of};
ghost use Rattle.context_books.specs.Guesses.{AllGuessed, guess_at, missed_in};
ghost use Rattle.context_books.specs.Histories.{LegalHistory};
ghost use Rattle.context_books.specs.Entries.{Fits};
ghost use Rattle.lane_workers.specs.Showing.{Showing, AllShown, book, journal, stamped_journals};

/// From what each lane shows by itself to the journals of all contexts. With their stamps they are
/// one legal history, and each is legal alone.
pub fn shown_lanes_have_legal_journals()
    ensures history { (batch : Batch) (ciphers : ℕ → Cipher) (s : Showing)
        → AllShown batch ciphers s → LegalHistory batch (stamped_journals s) }
    ensures alone { (batch : Batch) (ciphers : ℕ → Cipher) (s : Showing)
        → AllShown batch ciphers s → (context : ℕ) → Legal batch context (journal s context) }
{}

/// Along these journals each entry has the step of the sequential context, and each place the reply
/// that its lane gave.
pub fn shown_lanes_are_answered()
    ensures steps { (batch : Batch) (ciphers : ℕ → Cipher) (s : Showing)
        → AllShown batch ciphers s
        → (context : ℕ) → Fits batch context (ciphers context) (book s context) }
    ensures replies { (batch : Batch) (ciphers : ℕ → Cipher) (s : Showing)
        → AllShown batch ciphers s
        → (context : ℕ) (p : Place) → Contains (journal s context) p
        → reply_of batch (ciphers context) (journal s context) p ≡ Some (s.replies p) }
{}

/// Each guess that a lane kept may have been made, and it missed as many items as the lane says.
pub fn shown_guesses_may_have_been_made()
    ensures guessed { (batch : Batch) (ciphers : ℕ → Cipher) (s : Showing)
        → AllShown batch ciphers s → (lane : ℕ) → lane < length batch
        → AllGuessed batch ciphers (journal s) lane (s.guesses lane) }
    ensures missed { (batch : Batch) (ciphers : ℕ → Cipher) (s : Showing)
        → AllShown batch ciphers s → (lane : ℕ) → lane < length batch
        → (context call n : ℕ) → OpensOn batch context lane call n
        → missed_in batch (ciphers context) (journal s context) lane call n
        (guess_at (lane_of batch lane) (s.guesses lane) call)
        ≡ guess_at (lane_of batch lane) (s.misses lane) call }
{}
