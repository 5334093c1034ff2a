//! The definitions of tables and journals tried on a small batch of two lanes, one of which adds a
//! context that the other one retires. The checker computes each row.

ghost use Rattle.std.specs.Prelude.{◌≡◌, ◌∷◌, [], true, false};
ghost use Rattle.call_places.specs.declared.entries.Act.TheVariants.{Look, Retire};
ghost use Rattle.call_places.specs.Notes.{note_entry};
ghost use Rattle.context_books.specs.Batches.{place};
ghost use Rattle.context_books.specs.LiveChecks.{is_live_history};
ghost use Rattle.context_books.specs.LiveRows.{told, added, looked, retired, sealed_and_opened};
ghost use Rattle.context_books.specs.LiveRows.{sealed_alone};

/// Tables and journals as they may be: retired at the end, between the look and the opening that it
/// serves, and before the look, which then finds nothing, so that nothing is opened.
pub fn rows_of_live_histories()
    ensures at_the_end { is_live_history (told (added 0 false ∷ looked 2 true ∷ retired 5 true ∷ [])
        (sealed_and_opened 1 3 4)) ≡ true }
    ensures before_the_opening { is_live_history
        (told (added 0 false ∷ looked 2 true ∷ retired 3 true ∷ []) (sealed_and_opened 1 4 5))
        ≡ true }
    ensures before_the_look { is_live_history
        (told (added 0 false ∷ retired 2 true ∷ looked 3 false ∷ []) (sealed_alone 1)) ≡ true }
    ensures before_the_add { is_live_history
        (told (retired 1 false ∷ added 2 false ∷ looked 3 true ∷ []) (sealed_and_opened 0 4 5))
        ≡ true }
{}

/// Tables that none may be: a note missing or twice, of another name or act, with a wrong bit, in
/// another order than the stamps, or of a call that has none.
pub fn rows_of_tables()
    ensures missing { is_live_history (told (added 0 false ∷ looked 2 true ∷ [])
        (sealed_and_opened 1 3 4)) ≡ false }
    ensures twice { is_live_history
        (told (added 0 false ∷ looked 2 true ∷ retired 5 true ∷ retired 6 false ∷ [])
        (sealed_and_opened 1 3 4)) ≡ false }
    ensures wrong_bit { is_live_history
        (told (added 0 false ∷ looked 2 true ∷ retired 5 false ∷ []) (sealed_and_opened 1 3 4))
        ≡ false }
    ensures not_live { is_live_history
        (told (added 0 false ∷ retired 2 true ∷ looked 3 true ∷ []) (sealed_and_opened 1 4 5))
        ≡ false }
    ensures other_act { is_live_history
        (told (added 0 false ∷ looked 2 true ∷ note_entry (place 1 1 0) 5 0 Look true ∷ [])
        (sealed_and_opened 1 3 4)) ≡ false }
    ensures other_name { is_live_history
        (told (added 0 false ∷ looked 2 true ∷ note_entry (place 1 1 0) 5 1 Retire false ∷ [])
        (sealed_and_opened 1 3 4)) ≡ false }
    ensures of_the_seal { is_live_history
        (told (added 0 false ∷ looked 2 true ∷ note_entry (place 1 0 0) 5 0 Look true ∷ [])
        (sealed_and_opened 1 3 4)) ≡ false }
    ensures falling { is_live_history
        (told (added 0 false ∷ retired 5 true ∷ looked 2 true ∷ []) (sealed_and_opened 1 3 4))
        ≡ false }
{}

/// Stamps that are no history: the table's from 0 beside the journals', one that is given twice or
/// skipped, a note behind the places of its call or before the calls before it, the notes of a
/// lane out of order, an opening that a note parts; and what is opened though its look found
/// nothing.
pub fn rows_of_stamps()
    ensures table_from_0 { is_live_history
        (told (added 0 false ∷ looked 1 true ∷ retired 2 true ∷ []) (sealed_and_opened 0 1 2))
        ≡ false }
    ensures given_twice { is_live_history
        (told (added 0 false ∷ looked 2 true ∷ retired 4 true ∷ []) (sealed_and_opened 1 3 4))
        ≡ false }
    ensures skipped { is_live_history
        (told (added 0 false ∷ looked 2 true ∷ retired 6 true ∷ []) (sealed_and_opened 1 3 4))
        ≡ false }
    ensures behind_its_places { is_live_history
        (told (added 0 false ∷ looked 4 true ∷ retired 5 true ∷ []) (sealed_and_opened 1 2 3))
        ≡ false }
    ensures before_earlier_calls { is_live_history
        (told (added 0 false ∷ looked 1 true ∷ retired 2 true ∷ []) (sealed_and_opened 3 4 5))
        ≡ false }
    ensures notes_out_of_order { is_live_history
        (told (looked 0 false ∷ added 1 false ∷ retired 3 true ∷ []) (sealed_alone 2)) ≡ false }
    ensures parted { is_live_history
        (told (added 0 false ∷ looked 2 true ∷ retired 4 true ∷ []) (sealed_and_opened 1 3 5))
        ≡ false }
    ensures opened_in_vain { is_live_history
        (told (added 0 false ∷ retired 2 true ∷ looked 3 false ∷ []) (sealed_and_opened 1 4 5))
        ≡ false }
{}
