//! The journals that books give.

ghost use Rattle.std.specs.Prelude.{ℕ, ◌≡◌, ◌<◌, [], None, get_or, length, map};
ghost use Rattle.call_places.specs.Entries.{mark_of};
ghost use Rattle.context_books.specs.Journals.{written, HasRoom};

use crate::book::Book;
use batch_plans::PlainList;
use call_places::{Entry, Mark};

// The marks of a book's entries, put over those of a journal.
fn write_journal(entries: &[Entry], journal: &mut [Mark])
    requires { length journal.old ≡ length entries.now }
    ensures { journal.new ≡ map mark_of entries.now }
{
    'entries: for (i, entry) in entries.iter().enumerate() {
        journal[i] = entry.mark();
    }
}

// The journal of a context that stands.
fn write_book(book: &Option<Book>, journal: &mut PlainList<Mark>)
    requires { HasRoom book.now journal.old }
    ensures { journal.new ≡ written book.now journal.old }
{
    if let Some(book) = book {
        write_journal(book.entries(), journal.as_mut_slice());
    }
}

/// Writes the journals of the contexts that stand, each over a list of just as many marks as the book
/// of its context has entries.
///
/// Where no context stands the journal stays as it was.
pub fn write_journals(books: &[Option<Book>], journals: &mut [PlainList<Mark>])
    requires count { length journals.old ≡ length books.now }
    requires room { (n : ℕ) → n < length books.now
        → HasRoom (get_or books.now n None) (get_or journals.old n []) }
    ensures { (n : ℕ) → n < length books.now → get_or journals.new n []
        ≡ written (get_or books.now n None) (get_or journals.old n []) }
{
    'books: for i in 0..books.len() {
        write_book(&books[i], &mut journals[i]);
    }
}
