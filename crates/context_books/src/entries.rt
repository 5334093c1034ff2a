//! Laws of entries: each has the step of the sequential context at its number.

ghost use Rattle.std.specs.Prelude.{ℕ, ◌≡◌, ◌↔◌, List, map};
ghost use Rattle.call_places.specs.declared.entries.Entry.{Entry};
ghost use Rattle.call_places.specs.Entries.{advances, seq_of};
ghost use Rattle.hpke_context.specs.Answers.{Cipher, Item, Answer, next, advances as rises_after};
ghost use Rattle.context_books.specs.Batches.{Batch, items_of};
ghost use Rattle.context_books.specs.Legal.{due_after};
ghost use Rattle.context_books.specs.Entries.{step_for, number_after, steps_from, Fits, LaneFits};
ghost use Rattle.context_books.specs.Histories.{entry_places};

/// A step raises the sequence number exactly where the answer does that it stands for.
pub fn a_step_advances_as_its_answer()
    ensures advances { (x : Item) (a : Answer) → advances (step_for x a) ≡ rises_after a }
    ensures number { (n : ℕ) (x : Item) (a : Answer) → number_after n (step_for x a) ≡ next n a }
{}

/// All entries fit exactly where those of each lane do, each at its number among all.
pub fn entries_fit_lane_by_lane()
    ensures { (batch : Batch) (context : ℕ) (c : Cipher) (entries : List Entry)
        → Fits batch context c entries
        ↔ ((lane : ℕ) → LaneFits batch context c lane entries) }
{}

/// Entries that fit have the steps of the sequential context along the items of their places, and
/// the number that is due after them is the sequential context's.
pub fn fitting_entries_are_a_run()
    ensures steps { (batch : Batch) (context : ℕ) (c : Cipher) (entries : List Entry)
        → Fits batch context c entries
        → map (λ e. e.step) entries ≡ steps_from c 0 (items_of batch (entry_places entries)) }
    ensures due { (batch : Batch) (context : ℕ) (c : Cipher) (entries : List Entry)
        → Fits batch context c entries
        → seq_of entries ≡ due_after batch c (entry_places entries) }
{}
