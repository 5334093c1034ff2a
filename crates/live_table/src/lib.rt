//! Which contexts calls may use, while threads add them, retire them and call them.
//!
//! A [`LiveTable`] is a list of notes under a lock. A note says of a name that its context was
//! added, retired, or looked up for a call, and whether the name was live before it. A name is live
//! if the last note that added or retired it added it. So each lane is answered as one thread would
//! answer the notes in the order of the list.
//!
//! A contract sees a pass by the entries that it has seen. The promise for the layer above: a note
//! comes after what others noted, with a stamp above theirs and above all that its lane knew, and
//! its answer is that of the entries before it (`specs/Calls.antt`). At `close` the list begins
//! with what each pass saw, each entry says what was live before it, and the seat has drawn the
//! stamps of the entries, in order.
//!
//! Nothing here holds a context, and nothing says that a turn comes. Only `new` takes memory.
//!
//! Tests: `serving_tests`.
#![tactic(auto)]

mod note_list;
mod notes;
mod table;

pub use note_list::NoteList;
pub use table::LiveTable;
