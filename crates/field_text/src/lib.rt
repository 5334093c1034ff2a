//! The lines and the fields of the batch text and of the reply text: how a text is cut into lines
//! and pieces and judged line by line, how one piece is read, and how texts, numbers and bytes are
//! printed.
//!
//! [`read_whole`] and [`read_front`] read the lines that a [`Draft`] knows, by `specs/Lines.antt`:
//! what the text spells, or its first bad line and that line's first [`Reason`]. A contract sees
//! [`Pieces`] as the list of the pieces of a line that are still to be read. Each field is a
//! definition in `specs/Fields.antt`, and each method answers just what that gives (`Readings`). The
//! bytes of a field go to the end of one pool, and the field's value is their
//! [`Span`](call_places::Span).
//!
//! What is printed goes through a [`Buffer`], by `specs/Buffers.antt`: each call puts its piece of
//! the text, and [`Buffer::finish`] says whether the sink took the whole text or a prefix of it.
//!
//! Each call is linear in the bytes that it reads or puts: a line is cut once, and hex digits are
//! read and written several at a time. Which lines a batch or a reply has is not known here.
//!
//! Tests: `text_tests`.
#![tactic(auto)]

mod buffer;
mod cuts;
mod faults;
mod fields;
mod hex_printing;
mod hex_reading;
mod lines;
mod pieces;
mod printing;
mod reasons;
mod stop;

pub use buffer::Buffer;
pub use cuts::cut_at;
pub use faults::{BadBatch, ReadBatchFault};
pub use fields::{read_bytes, read_number};
pub use lines::{Draft, Front, read_front, read_whole};
pub use pieces::Pieces;
pub use printing::Printed;
pub use reasons::Reason;
pub use stop::Stop;
