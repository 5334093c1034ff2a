//! What is read of a result, and what is printed: each is the other's inverse.

ghost use Rattle.std.specs.Prelude.{◌≡◌, ℕ, List, Option, Ok, All};
ghost use Rattle.call_places.specs.declared.entries.Entry.{Entry};
ghost use Rattle.call_places.specs.declared.entries.Mark.{Mark};
ghost use Rattle.call_places.specs.Orders.{StampsRise};
ghost use Rattle.hpke_context.specs.Contexts.{ContextView};
ghost use Rattle.batch_plans.specs.declared.plan.Plan.{Plan};
ghost use Rattle.batch_plans.specs.declared.replies.Batch.{Batch};
ghost use Rattle.batch_plans.specs.declared.replies.KeyReply.{KeyReply};
ghost use Rattle.batch_plans.specs.declared.replies.ContextReply.{ContextReply};
ghost use Rattle.batch_plans.specs.ReplyText.{has_stamps};
ghost use Rattle.context_books.specs.Live.{looked_up_plan};
ghost use Rattle.result_lines.specs.declared.stamps.Stamps.TheVariants.{PlacesAndNotes};
ghost use Rattle.result_lines.specs.Told.{ToldView, told_by};
ghost use Rattle.result_lines.specs.Printed.{AreComplete, IsLine, IsGuessWithin, IsMarkWithin};
ghost use Rattle.result_lines.specs.Printed.{IsTextOf, IsReadBack, IsPlaceWithin};
ghost use Rattle.result_lines.specs.ToldLive.{told_live_by};
ghost use Rattle.result_lines.specs.PrintedLive.{IsReply, IsNoteWithin, IsLiveTextOf};
ghost use Rattle.result_lines.specs.PrintedLive.{IsLiveReadBack};

/// A text that is read as a result is the text of what it tells, and tells all that it has to.
pub fn what_is_read_is_the_text()
    ensures { (plan : Plan) (keys : List KeyReply) (replies : List ContextReply)
        (contexts : List (Option ContextView)) (text : List ℕ) (told : ToldView)
        → told_by plan keys replies contexts text ≡ Ok told
        → IsTextOf plan keys replies contexts text told }
{}

/// The text that tells given replies, guesses and journals, whose lines have one line feed each and
/// whose numbers fit their fields, is read back as these.
pub fn what_is_printed_is_read_back()
    ensures { (plan : Plan) (keys : List KeyReply) (replies : List ContextReply)
        (contexts : List (Option ContextView)) (lines : List (List ℕ)) (guesses : List (List Batch))
        (journals : List (List Mark)) → AreComplete plan contexts lines guesses journals
        → All IsLine lines → All (All IsGuessWithin) guesses
        → All (All (IsMarkWithin (has_stamps plan.version))) journals
        → IsReadBack plan keys replies contexts lines guesses journals }
{}

/// A text that is read as a result whose lanes add and retire contexts, by whatever table, is the
/// text of what it tells and of that table, and tells all that it has to.
pub fn what_is_read_live_is_the_text()
    ensures { (plan : Plan) (keys : List KeyReply) (replies : List ContextReply)
        (contexts : List (Option ContextView)) (notes : List Entry) (text : List ℕ)
        (told : ToldView) → told_live_by plan keys replies contexts notes text ≡ Ok told
        → IsLiveTextOf plan keys replies contexts notes text told }
{}

/// The text that tells given replies, guesses, journals and notes has this table, and is read back
/// as these. Its replies are lines other than `table`, its numbers fit their fields, each note is what
/// its line and its call say, and the stamps of notes rise.
pub fn what_is_printed_live_is_read_back()
    ensures { (plan : Plan) (keys : List KeyReply) (replies : List ContextReply)
        (contexts : List (Option ContextView)) (lines : List (List ℕ)) (guesses : List (List Batch))
        (journals : List (List Mark)) (notes : List Entry)
        → AreComplete (looked_up_plan plan notes) contexts lines guesses journals
        → All IsReply lines → All (All IsGuessWithin) guesses
        → All (All (IsPlaceWithin PlacesAndNotes)) journals
        → All (IsNoteWithin plan contexts) notes → StampsRise notes
        → IsLiveReadBack plan keys replies contexts lines guesses journals notes }
{}
