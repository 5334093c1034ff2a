//! The notes of a table that is closed.

ghost use Rattle.std.specs.Prelude.{◌≡◌};

use call_places::Entry;
use std::marker::Model;

/// The notes of a table, the oldest first. Contracts see the list of their entries.
#[derive(Drop)]
pub struct NoteList {
    pub(crate) entries: Vec<Entry>,
}

impl Model for NoteList {
    ghost use Rattle.std.specs.Prelude.{List};
    ghost use Rattle.call_places.specs.declared.entries.Entry.{Entry};

    ghost Value = { List Entry };

    ghost view = { λ l. l.entries.items };
}

impl NoteList {
    /// The entries. It takes no memory.
    pub fn into_vec(self) -> Vec<Entry>
        ensures { result.items ≡ self }
    {
        self.entries
    }
}
