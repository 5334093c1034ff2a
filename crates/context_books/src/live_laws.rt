//! Laws of the table and the journals, which the stamps make one history.

ghost use Rattle.std.specs.Prelude.{ℕ, ◌≡◌, ◌↔◌, ◌+◌, List, length, IsTrue};
ghost use Rattle.call_places.specs.Notes.{AreLive};
ghost use Rattle.context_books.specs.Batches.{Spot};
ghost use Rattle.context_books.specs.Histories.{journals_of};
ghost use Rattle.context_books.specs.Merging.{IsHistory};
ghost use Rattle.context_books.specs.Live.{LegalTable, LiveHistory, LiveRun, run_of};
ghost use Rattle.context_books.specs.LiveChecks.{asks_with_notes, with_table, TellActs};
ghost use Rattle.context_books.specs.LiveChecks.{is_live_history};
ghost use Rattle.context_books.specs.Runs.{asks_of};

/// The table is legal, and with the journals one history, exactly where all are one list of notes
/// and places. In it each lane has the note of a call that has one before what the call asks, call
/// by call, and openings of several messages stand together. The notes say what their calls do,
/// and what was live.
pub fn a_live_history_is_one_list()
    ensures { (live : LiveRun) → (LegalTable live.plan live.standing live.notes
        × LiveHistory (asks_of (run_of live)) live.journals live.notes)
        ↔ ((history : List Spot)
        × IsHistory (asks_with_notes live) (length live.journals + 1) history
        × (with_table live ≡ journals_of (length live.journals + 1) history)
        × TellActs live.plan live.standing live.notes × AreLive live.notes) }
{}

/// The test of a table and journals passes exactly where the table is legal, and one history with
/// them.
pub fn a_live_history_is_told()
    ensures { (live : LiveRun) → IsTrue (is_live_history live)
        ↔ (LegalTable live.plan live.standing live.notes
        × LiveHistory (asks_of (run_of live)) live.journals live.notes) }
{}
