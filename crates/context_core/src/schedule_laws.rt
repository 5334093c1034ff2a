//! What holds of the core after any events.

ghost use Rattle.std.specs.Prelude.{ℕ, ◌≡◌, ◌<◌, ◌≤◌, [], List, length, slice_get, Some};
ghost use Rattle.call_places.specs.declared.entries.Place.{Place};
ghost use Rattle.hpke_context.specs.Answers.{Cipher};
ghost use Rattle.call_places.specs.Messages.{SealedMessage};
ghost use Rattle.context_books.specs.Batches.{Batch, ToOpenAll, lane_of, IsServed};
ghost use Rattle.context_books.specs.Legal.{Legal};
ghost use Rattle.context_books.specs.Guesses.{AllGuessed};
ghost use Rattle.context_books.specs.Histories.{LegalHistory, journals_of};
ghost use Rattle.context_books.specs.Merging.{IsHistory};
ghost use Rattle.context_core.specs.Core.{Core, Lane, core, journal, happens};
ghost use Rattle.context_core.specs.Openings.{OpensInTurn};

/// Whatever order the steps come in, each journal of the core is legal, each lane does all of its
/// steps, and it ends with one guess for each of its openings of several messages, which it may
/// have made.
pub fn every_schedule_is_legal()
    ensures legal { (batch : Batch) (ciphers : ℕ → Cipher) (schedule : List ℕ) (context : ℕ)
        → Legal batch context (journal (core batch ciphers schedule) context) }
    ensures lanes { (batch : Batch) (ciphers : ℕ → Cipher) (schedule : List ℕ)
        → length (core batch ciphers schedule).lanes ≡ length batch }
    ensures ended { (batch : Batch) (ciphers : ℕ → Cipher) (schedule : List ℕ)
        (number : ℕ) (lane : Lane)
        → slice_get (core batch ciphers schedule).lanes number ≡ Some lane
        → lane.to_come ≡ [] }
    ensures guessed { (batch : Batch) (ciphers : ℕ → Cipher) (schedule : List ℕ)
        (number : ℕ) (lane : Lane)
        → slice_get (core batch ciphers schedule).lanes number ≡ Some lane
        → AllGuessed batch ciphers (journal (core batch ciphers schedule)) number lane.guesses }
{}

/// All places of the core, in the order in which they were given, are a history of the batch. So
/// its journals, where the stamp of a place is how many were given before it, are legal together.
pub fn every_schedule_is_one_history()
    ensures history { (batch : Batch) (ciphers : ℕ → Cipher) (schedule : List ℕ) (contexts : ℕ)
        → ((context : ℕ) (p : Place) → IsServed batch context p → context < contexts)
        → IsHistory batch contexts (core batch ciphers schedule).history }
    ensures legal { (batch : Batch) (ciphers : ℕ → Cipher) (schedule : List ℕ) (contexts : ℕ)
        → ((context : ℕ) (p : Place) → IsServed batch context p → context < contexts)
        → LegalHistory batch (journals_of contexts (core batch ciphers schedule).history) }
{}

/// Whatever order the steps come in, an opening of several messages is answered as its messages
/// opened one after another at its block.
pub fn every_schedule_opens_in_turn()
    ensures { (batch : Batch) (ciphers : ℕ → Cipher) (schedule : List ℕ)
        (context lane call : ℕ) (messages : List SealedMessage)
        → slice_get (lane_of batch lane) call ≡ Some (ToOpenAll context messages)
        → OpensInTurn batch (ciphers context) (journal (core batch ciphers schedule) context)
        lane call messages }
{}

/// An event of a lane at its end, or of one that isn't there, changes nothing.
pub fn an_idle_lane_does_nothing()
    ensures at_end { (batch : Batch) (ciphers : ℕ → Cipher) (w : Core) (number : ℕ) (lane : Lane)
        → slice_get w.lanes number ≡ Some lane → lane.to_come ≡ []
        → happens batch ciphers w number ≡ w }
    ensures not_there { (batch : Batch) (ciphers : ℕ → Cipher) (w : Core) (number : ℕ)
        → length w.lanes ≤ number → happens batch ciphers w number ≡ w }
{}
