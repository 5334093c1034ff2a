//! The books of the contexts that stand, in one order of places.

ghost use Rattle.std.specs.Prelude.{ℕ, ◌≡◌, ◌≤◌, IsSome, All, take, Some, length};
ghost use Rattle.call_places.specs.Entries.{seq_of};
ghost use Rattle.call_places.specs.Spans.{ItemIsInPool};
ghost use Rattle.hpke_context.specs.Calls.{HasCipher};
ghost use Rattle.context_books.specs.Books.{BookView};
ghost use Rattle.context_books.specs.Openings.{IsTableFor};
ghost use Rattle.context_core.specs.Books.{book_at, MayAdd, Draws, Settles};

use aes_gcm::Checks;
use call_places::{Item, Place, Step};
use context_books::{Book, Draw};
use hpke_context::Context;
use speculative_open::GuessTable;

/// The books of the contexts of a plan, and how many places all of them have: that is the stamp of
/// the next place.
#[derive(Drop)]
pub(crate) struct Books {
    /// One for each context that stands.
    pub(crate) books: Vec<Option<Book>>,
    pub(crate) places: u64,
    pub(crate) checks: Checks,
}

/// The sequence number that is due in a context that stands.
pub(crate) fn due(books: &Books, number: u32) -> u64
    requires { IsSome (book_at books.now number) }
    ensures { (book : BookView) → book_at books.now number ≡ Some book
        → result ≡ seq_of book.entries }
{
    let Some(book) = &books.books[number as usize] else {
        unreachable!()
    };
    book.seq()
}

/// Gives a seal its place and its number.
pub(crate) fn draw(books: &mut Books, number: u32, place: Place) -> Draw
    requires { MayAdd books.old number place.lane 1 }
    ensures { (book : BookView) → book_at books.old number ≡ Some book
        → Draws books.old books.new number place book result }
{
    let stamp = books.places;
    let Some(book) = &mut books.books[number as usize] else {
        unreachable!()
    };
    let drawn = book.draw(place, stamp);
    books.places += 1;
    drawn
}

/// The items of an opening, which get their places: those of a call of a lane.
#[derive(Clone, Copy)]
pub(crate) struct Opening<'a> {
    pub(crate) context: &'a Context,
    /// That of the context.
    pub(crate) number: u32,
    pub(crate) pool: &'a [u8],
    pub(crate) items: &'a [Item],
    pub(crate) lane: u32,
    pub(crate) call: u32,
}

/// Gives the items of an opening their places, one after another, and tells which number was due
/// before them and how many of theirs the guess missed. `steps` gets what became of them, at its front.
pub(crate) fn settle(
    books: &mut Books,
    opening: Opening<'_>,
    table: &GuessTable,
    steps: &mut [Step],
) -> (u64, u32)
    requires cipher { HasCipher opening.context.now }
    requires limit { (book : BookView) → book_at books.old opening.number ≡ Some book
        → opening.context.now.limit ≡ book.limit }
    requires spans { All (ItemIsInPool (length opening.pool.now)) opening.items.now }
    requires table { IsTableFor opening.context.now opening.pool.now opening.items.now table.now }
    requires steps { length opening.items.now ≤ length steps.old }
    requires few { length opening.items.now ≤ 65536 }
    requires room { MayAdd books.old opening.number opening.lane (length opening.items.now) }
    ensures { (book : BookView) → book_at books.old opening.entry.number ≡ Some book
        → Settles books.old books.new opening.entry.number book opening.entry.context.now
        opening.entry.pool.now opening.entry.items.now opening.entry.lane opening.entry.call
        table.now.guess result.0 result.1 (take (length opening.entry.items.now) steps.new) }
{
    let stamp = books.places;
    let Opening {
        context,
        number,
        pool,
        items,
        lane,
        call,
    } = opening;
    let Some(book) = &mut books.books[number as usize] else {
        unreachable!()
    };
    let first = book.seq();
    let checks = &mut books.checks;
    let steps = &mut steps[..items.len()];
    let missed = book.settle(
        context, pool, items, lane, call, stamp, table, steps, checks,
    );
    books.places += items.len() as u64;
    (first, missed)
}
