//! The close of all contexts and of their counter.

ghost use Rattle.std.specs.Prelude.{◌≡◌, ◌+◌, ◌≤◌, [], List, Option, length, map, vec_len, vec_capacity};
ghost use Rattle.turn_lock.specs.Passes.{PassView};
ghost use Rattle.shared_runs.specs.Tables.{IsTable, HasStamps};
ghost use Rattle.shared_runs.specs.Collected.{ArePut};
ghost use Rattle.shared_runs.specs.Closing.{entries_of, MayClose, HasClosed, HasClosedAll};

use crate::tables::{Left, Table};
use context_books::Book;
use shared_context::SharedContext;
use stamp_counter::{StampCounter, StampSeat};
use turn_lock::PassList;

// Closes a context, where there is one. What its seat drew and has left goes to `all`.
fn close(
    context: Option<SharedContext>,
    passes: Option<PassList>,
    counter: &StampCounter,
    all: &mut StampSeat,
) -> Option<Book>
    requires may { MayClose counter.now.id context passes }
    requires seat { all.old.counter ≡ counter.now.id }
    ensures { HasClosed context passes all.old all.new result }
{
    let (Some(context), Some(passes)) = (context, passes) else {
        return None;
    };
    let (_, book, seat) = context.close(passes);
    counter.join(all, seat);
    // A book keeps it that the stamps of its entries rise, and tells so with them.
    let _ = book.entries();
    Some(book)
}

impl Table<'_> {
    /// Closes the contexts and the counter, and gives the contexts' books. All passes are back.
    pub(crate) fn close_contexts(self, left: Left, books: &mut Vec<Option<Book>>)
        requires table { IsTable self }
        requires seat { left.seat.counter ≡ self.counter.id }
        requires stamps { HasStamps (length left.seat.drawn + left.seat.left) self }
        requires back { (passes : List (List (Option PassView))) × ArePut self left passes
            × (length passes ≡ length self.lanes.now) }
        requires none { books.old.items ≡ [] }
        requires room { length self.contexts ≤ vec_capacity books.old }
        ensures count { length books.new.items ≡ length self.entry.contexts }
        ensures closed { (passes : List (List (Option PassView))) → ArePut self.entry left passes
            → length passes ≡ length self.entry.lanes.now
            → HasClosedAll self.entry left.seat.drawn passes (map entries_of books.new.items) }
    {
        let Table {
            mut contexts,
            counter,
            ..
        } = self;
        let Left {
            mut passes,
            mut seat,
        } = left;
        let contexts = contexts.as_mut_slice();
        'contexts: for number in 0..contexts.len() {
            let (context, list) = (contexts[number].take(), passes[number].take());
            books.push_reserved(close(context, list, &counter, &mut seat));
        }
        counter.close(seat);
    }
}
