//! The batch text, which says what is asked for: a format of this program's own.
//!
//! A batch text is lines, and a line is a word and its fields. [`read_batch`] answers the [`Plan`]
//! that a text spells by `batch` of `specs/Batch.antt`, or its first bad line and that line's first
//! reason. [`one_reading`] says that each text has just one of these, and [`one_spelling`] that a
//! plan's text is `text_of` of `specs/PlanText.antt` and no other. [`read_front`] reads a batch
//! that something else follows, and [`fronts_are_batches`] says that it is one by itself.
//!
//! [`read_live`] and [`read_live_front`] do the same for a batch whose lanes add and retire contexts
//! while they are served, by `live` of `specs/Live.antt`; [`one_live_reading`],
//! [`one_live_spelling`] and [`live_fronts_are_batches`] are its laws. Such a batch has the lines of
//! a batch of version 2, and in its lanes lines `add` and `retire` besides. Its calls may name a
//! context that a line adds. Whether a call finds its context live is not known here.
//!
//! For grammars with other lines there are the lines by themselves, [`BatchDraft`], and the fields
//! alone, [`read_number`] and [`read_bytes`]. The lines of the seed and of keys are those of batches
//! of capsules too: [`read_rand`] and [`read_key`] read the fields that follow such a line's word,
//! [`read_kdf`] and [`read_message`] one field of a line of another kind, each just as its definition
//! in `specs/KeyWords.antt` or `specs/KeyForms.antt` says, with the bytes at the end of one pool.
//! `specs/KeyText.antt` has the text of what was read. Where such a line may be, and how many there
//! may be, each grammar says for itself.
//!
//! The plan, the answers and the calls on them are those of batch_plans, and the printers of replies
//! those of reply_frames; this crate exports them again.
//!
//! Not here: what a served call does, and whether a context's psk inputs go with its mode (RFC
//! 9180, 5.1).
//!
//! Tests: `text_tests`.
#![tactic(auto)]

mod adding;
mod call_lines;
mod contexts;
mod draft;
mod fields;
mod key_lines;
mod key_words;
mod live_draft;
mod live_reading;
mod live_words;
mod messages;
mod names;
mod open_lanes;
mod reading;
mod spelling;
mod words;

pub use batch_plans::{
    Answers, Batch, BatchList, ByteList, CallLine, CallRefusal, ContextKind, ContextLine,
    ContextLines, ContextRefusal, ContextReplies, ContextReply, EncField, ItemList, JournalList,
    KeyLine, KeyLines, KeyRefusal, KeyReplies, KeyReply, LaneAnswerList, LaneAnswers, LaneLines,
    LaneProgress, PlainList, Plan, Reply, ReplyList, call_refusal,
};
pub use draft::BatchDraft;
pub use field_text::{BadBatch, Printed, ReadBatchFault, Reason};
pub use fields::{FieldFault, read_bytes, read_number};
pub use key_lines::{read_key, read_rand};
pub use key_words::{KeyWord, read_kdf};
pub use live_reading::{
    live_fronts_are_batches, one_live_reading, one_live_spelling, read_live, read_live_front,
};
pub use messages::read_message;
pub use reading::{fronts_are_batches, one_reading, read_batch, read_front};
pub use reply_frames::{print_answers, print_bad, print_reply, print_setup};
pub use spelling::one_spelling;
pub use words::{CallWord, ContextWord, LineWord, line_word};
