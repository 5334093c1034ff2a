//! Laws of the journals of all contexts, which their stamps make one history.

ghost use Rattle.std.specs.Prelude.{ℕ, ◌≡◌, ◌↔◌, List, length};
ghost use Rattle.call_places.specs.declared.entries.Mark.{Mark};
ghost use Rattle.context_books.specs.Batches.{Batch, Spot};
ghost use Rattle.context_books.specs.Legal.{Legal};
ghost use Rattle.context_books.specs.Histories.{LegalHistory, journals_of, marks_at, places};
ghost use Rattle.context_books.specs.Merging.{IsHistory};

/// Each journal of a legal history is legal by itself.
pub fn a_legal_history_has_legal_journals()
    ensures { (batch : Batch) (journals : List (List Mark)) (context : ℕ)
        → LegalHistory batch journals → Legal batch context (places (marks_at journals context)) }
{}

/// The journals of all contexts are a legal history exactly where they are those of one list of all
/// places, in which each lane's places are what it asks for, in order, and openings of several
/// messages stand together.
pub fn a_legal_history_is_one_list()
    ensures { (batch : Batch) (journals : List (List Mark)) → LegalHistory batch journals
        ↔ ((history : List Spot) × IsHistory batch (length journals) history
        × (journals ≡ journals_of (length journals) history)) }
{}
