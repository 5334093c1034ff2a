//! What a batch asks for, the room for its answers, and the text that tells them.
//!
//! A [`Plan`] is a whole batch: its seed, its key lines and context lines (RFC 9180, 5.1), and its
//! lanes of calls (RFC 9180, 5.2 and 5.3). The bytes of its fields, except the seed's, are spans of
//! one pool. `IsWithinLimits` of `specs/Within.antt` holds for every plan that a text spells.
//!
//! A [`CallLine`] is taken apart in one place: [`kind_of`], [`context_of`], [`items_of`], [`size_of`]
//! and [`keeps_guess`] say what a call is and has, whatever its form.
//!
//! [`call_refusal`] says which calls are served by the contexts that were set up, as `refusal` of
//! `specs/Calls.antt` defines it. [`Answers`] have room for all replies, guesses and journals
//! before the first call is answered (`specs/Room.antt`), and a [`LaneProgress`] fills those of one
//! lane (`specs/Progress.antt`).
//!
//! The text that a batch is answered with is defined here as a list of its lines, a format of this
//! program's own (docs/FORMAT.md). `specs/Words.antt` has the words of refusals and reasons,
//! `specs/Lines.antt` the lines of keys, contexts, replies and guesses, `specs/ReplyText.antt` the
//! whole text, for version 1 and version 2, and `specs/LiveText.antt` that of a plan whose lanes add
//! and retire contexts. `specs/AnswersText.antt` has the text of given answers, and which of a lane's
//! replies belong to which call.
//!
//! A contract sees each list as the list of its items. Not here: which text spells a plan, which
//! answers a plan may have, how they are printed, and what a served call does.
//!
//! `proofs/Calls.antt` adds the lines of one call more to those of the calls before it, and
//! `proofs/Pools.antt` says that bytes written behind the replies' spans change no line.
//!
//! Tests: `text_tests` (through `request_frames`, and those that print these texts) and
//! `context_tests`.
#![tactic(auto)]

mod calls;
mod items;
mod journals;
pub mod limits;
mod names;
mod plan;
mod progress;
mod replies;
mod room;

pub use byte_strings::{ByteList, PlainList};
pub use calls::{call_refusal, context_of, items_of, keeps_guess, kind_of, refusal_by, size_of};
pub use items::items_from;
pub use names::FIRST_NAME;
pub use plan::{
    CallKind, CallLine, ContextKind, ContextLine, ContextLines, EncField, ItemList, KeyLine,
    KeyLines, KeySet, KeySource, LaneLines, Plan,
};
pub use progress::LaneProgress;
pub use replies::{
    Answers, Batch, BatchList, CallRefusal, ContextRefusal, ContextReplies, ContextReply,
    EntryList, JournalList, KeyRefusal, KeyReplies, KeyReply, LaneAnswerList, LaneAnswers, Reply,
    ReplyList,
};
