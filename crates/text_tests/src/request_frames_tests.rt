//! Batch texts that are read, the refusals of calls and the room for replies, and replies that are
//! printed.

mod answers;
mod bad_calls;
mod bad_contexts;
mod bad_set_ups;
mod bad_texts;
mod expected;
mod long_fields;
mod long_texts;
mod plan;
mod printing;
mod reading;
mod reply_rows;
mod room;
mod whole_replies;
