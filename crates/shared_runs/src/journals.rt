//! The journals that books give.

ghost use Rattle.std.specs.Prelude.{ℕ, ◌≡◌, ◌<◌, ◌≤◌, [], None, length, map, slice_index_or, take};
ghost use Rattle.call_places.specs.Entries.{mark_of};
ghost use Rattle.shared_runs.specs.Closing.{entries_of};

use batch_plans::PlainList;
use call_places::Mark;
use context_books::{Book, write_journals};

// How many places a context has in its journal.
fn place_count(book: &Option<Book>) -> usize
    ensures { result ≡ length (entries_of book.now) }
{
    match book {
        Some(book) => book.entries().len(),
        None => 0,
    }
}

// Cuts each journal to as many places as its book has entries.
fn cut_journals(books: &[Option<Book>], journals: &mut [PlainList<Mark>])
    requires count { length journals.old ≡ length books.now }
    ensures { (n : ℕ) → n < length books.now → slice_index_or journals.new n []
        ≡ take (length (entries_of (slice_index_or books.now n None)))
        (slice_index_or journals.old n []) }
{
    'books: for i in 0..books.len() {
        journals[i].truncate(place_count(&books[i]));
    }
}

/// Puts the marks of each book's entries into the journal of its context.
///
/// The room of a journal is for the case that each call finds its context: it is cut to the places
/// that there are.
pub(crate) fn put_journals(books: &[Option<Book>], journals: &mut [PlainList<Mark>])
    requires count { length journals.old ≡ length books.now }
    requires room { (n : ℕ) → n < length books.now
        → length (entries_of (slice_index_or books.now n None))
        ≤ length (slice_index_or journals.old n []) }
    ensures { journals.new ≡ map (map mark_of) (map entries_of books.now) }
{
    cut_journals(books, journals);
    write_journals(books, journals);
}
