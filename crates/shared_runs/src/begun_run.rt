//! A run before its first call.

use batch_plans::{ContextReplies, EntryList, JournalList, KeyReplies, LaneAnswers};
use context_books::Book;

/// Lanes, and all that their run needs beside what they share. No more memory is taken for it.
#[derive(Drop)]
pub(crate) struct BegunRun<L> {
    pub(crate) lanes: Vec<L>,
    /// Room for the answers of the lanes.
    pub(crate) answers: Vec<LaneAnswers>,
    /// Room for the books of the contexts.
    pub(crate) books: Vec<Option<Book>>,
    pub(crate) keys: KeyReplies,
    pub(crate) contexts: ContextReplies,
    pub(crate) journals: JournalList,
    pub(crate) notes: EntryList,
}
