//! Laws of the journals of one context: which are legal, and how their items are answered.

ghost use Rattle.std.specs.Prelude.{ℕ, ◌≡◌, ◌≢◌, ◌↔◌, ◌<◌, ◌+◌, ◌∷◌, ◌++◌, [], List, length, map};
ghost use Rattle.std.specs.Prelude.{take, slice_get, Contains, Some, None};
ghost use Rattle.std.specs.List.{range_with_len};
ghost use Rattle.call_places.specs.declared.entries.Place.{Place};
ghost use Rattle.call_places.specs.Orders.{IsBefore};
ghost use Rattle.hpke_context.specs.Answers.{Cipher, Item, Seal, Unseal, answer, run};
ghost use Rattle.context_books.specs.Batches.{Batch, Ask, ToSeal, ToOpen, items_in, item_of};
ghost use Rattle.context_books.specs.Batches.{lane_of, items_of, block, place, IsServed};
ghost use Rattle.context_books.specs.Merging.{lane_places, MergesLanes};
ghost use Rattle.context_books.specs.Legal.{Legal, OpensOn, due_after, number_of, replies};
ghost use Rattle.context_books.specs.Legal.{reply_of};
ghost use Rattle.context_books.specs.Entries.{numbers_used, numbers_from};

/// Along a journal the sequence numbers 0, 1, 2 and so on are used, each once: none is skipped, and
/// none is used twice.
pub fn each_number_is_used_once()
    ensures { (batch : Batch) (c : Cipher) (journal : List Place)
        → numbers_used (replies batch c journal)
        ≡ range_with_len 0 (length (numbers_used (replies batch c journal))) }
{}

/// Without a lane the empty journal is the only legal one.
pub fn no_lane_has_an_empty_journal()
    ensures { (context : ℕ) (journal : List Place)
        → Legal [] context journal ↔ (journal ≡ []) }
{}

/// With one lane the places that it asks for on a context, in the order of its calls, are the only
/// legal journal.
pub fn one_lane_has_one_journal()
    ensures { (asks : List Ask) (context : ℕ) (journal : List Place)
        → Legal (asks ∷ []) context journal ↔ (journal ≡ lane_places context 0 asks) }
{}

/// In that journal each seal, and each opening of one message, has the answer of the sequential
/// context at the number that is due after the lane's earlier calls.
pub fn one_lane_is_answered_in_order()
    ensures sealed { (asks : List Ask) (context : ℕ) (c : Cipher) (call : ℕ) (aad text : List ℕ)
        → slice_get asks call ≡ Some (ToSeal context aad text)
        → reply_of (asks ∷ []) c (lane_places context 0 asks) (place 0 call 0)
        ≡ Some (answer c (due_after (asks ∷ []) c (lane_places context 0 (take call asks)))
        (Seal aad text)) }
    ensures opened { (asks : List Ask) (context : ℕ) (c : Cipher) (call : ℕ) (aad ct : List ℕ)
        → slice_get asks call ≡ Some (ToOpen context aad ct)
        → reply_of (asks ∷ []) c (lane_places context 0 asks) (place 0 call 0)
        ≡ Some (answer c (due_after (asks ∷ []) c (lane_places context 0 (take call asks)))
        (Unseal aad ct)) }
{}

/// The legal journals are those that merge what the lanes ask for, each lane's places in order, and
/// openings of several messages unbroken.
pub fn a_legal_journal_merges_its_lanes()
    ensures { (batch : Batch) (context : ℕ) (journal : List Place)
        → Legal batch context journal ↔ MergesLanes batch context journal }
{}

/// In a legal journal each place that is served has the answer of the sequential context at the
/// number that is due there, and no other place has a reply.
pub fn each_served_place_has_its_reply()
    ensures served { (batch : Batch) (context : ℕ) (c : Cipher) (journal : List Place)
        (p : Place) (x : Item) → Legal batch context journal
        → item_of batch p ≡ Some (context, x)
        → reply_of batch c journal p ≡ Some (answer c (number_of batch c journal p) x) }
    ensures others { (batch : Batch) (context : ℕ) (c : Cipher) (journal : List Place)
        (p : Place) → Legal batch context journal → (IsServed batch context p → ⊥)
        → reply_of batch c journal p ≡ None }
{}

/// A call is answered as its items one after another, from the number on that is due before its
/// block: an opening of several messages too.
pub fn a_call_is_answered_item_by_item()
    ensures answers { (batch : Batch) (c : Cipher) (journal : List Place) (lane call : ℕ)
        (ask : Ask) (front after : List Place) → slice_get (lane_of batch lane) call ≡ Some ask
        → journal ≡ front ++ (block lane call 0 (length (items_in ask)) ++ after)
        → replies batch c journal ≡ replies batch c front
        ++ (run c (due_after batch c front) (items_in ask)
        ++ run c (due_after batch c (front ++ block lane call 0 (length (items_in ask))))
        (items_of batch after)) }
    ensures numbers { (batch : Batch) (context : ℕ) (c : Cipher) (journal : List Place)
        (lane call : ℕ) (ask : Ask) (front after : List Place) → Legal batch context journal
        → slice_get (lane_of batch lane) call ≡ Some ask
        → journal ≡ front ++ (block lane call 0 (length (items_in ask)) ++ after)
        → map (number_of batch c journal) (block lane call 0 (length (items_in ask)))
        ≡ numbers_from c (due_after batch c front) (items_in ask) }
{}

/// A journal is not legal where a served place is left out, where a place stands that is not
/// served, where one stands twice, where one stands behind a later one of its lane, or where
/// another place parts an opening.
pub fn some_journals_are_not_legal()
    ensures left_out { (batch : Batch) (context : ℕ) (journal : List Place) (p : Place)
        → IsServed batch context p → (Contains journal p → ⊥)
        → Legal batch context journal → ⊥ }
    ensures not_served { (batch : Batch) (context : ℕ) (journal : List Place) (p : Place)
        → Contains journal p → (IsServed batch context p → ⊥)
        → Legal batch context journal → ⊥ }
    ensures twice { (batch : Batch) (context : ℕ) (journal front between after : List Place)
        (p : Place) → journal ≡ front ++ (p ∷ (between ++ (p ∷ after)))
        → Legal batch context journal → ⊥ }
    ensures out_of_order { (batch : Batch) (context : ℕ)
        (journal front between after : List Place) (p q : Place)
        → p.lane ≡ q.lane → IsBefore p q → journal ≡ front ++ (q ∷ (between ++ (p ∷ after)))
        → Legal batch context journal → ⊥ }
    ensures torn { (batch : Batch) (context : ℕ) (journal front after : List Place)
        (lane call n item : ℕ) (p : Place) → OpensOn batch context lane call n → item + 1 < n
        → journal ≡ front ++ (place lane call item ∷ p ∷ after) → p ≢ place lane call (item + 1)
        → Legal batch context journal → ⊥ }
{}
