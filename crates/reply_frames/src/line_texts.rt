//! Lines of the reply text by themselves, each printed into memory of its own.

ghost use Rattle.std.specs.Prelude.{ℕ, ◌≡◌, ◌++◌, List, [], codes, decimal, length, IfOk};
ghost use Rattle.batch_plans.specs.Replies.{IsInRange};
ghost use Rattle.field_text.specs.Buffers.{Puts, IsFresh};
ghost use Rattle.batch_plans.specs.Lines.{key_line, context_line};
ghost use Rattle.batch_plans.specs.AnswersText.{reply_line};
ghost use Rattle.batch_plans.specs.LiveText.{note_line};

use crate::replies::put_key_line;
use crate::reply_lines::{put_context_line, put_note, put_numbered, put_reply};
use batch_io::{Sink, Took};
use batch_plans::{ContextReply, KeyReply, Reply};
use call_places::Entry;
use field_text::{Buffer, Printed};
use std::alloc::{AllocError, Global};

/// A sink that keeps all that is written, and fails only where memory runs out.
#[derive(Drop)]
pub struct TextSink {
    /// What was written.
    pub text: Vec<u8>,
    faults: u64,
}

impl Sink for TextSink {
    ghost use Rattle.std.specs.Prelude.{Some};

    ghost written = { λ s. Some s.text.items };

    ghost faults = { λ s. s.faults };

    fn write(&mut self, piece: &[u8]) -> Took {
        match self.text.extend_from_slice(piece) {
            Ok(()) => Took::Bytes(piece.len()),
            Err(_) => {
                self.faults = self.faults.saturating_add(1);
                Took::Failed
            }
        }
    }
}

impl TextSink {
    /// A sink that nothing was written to.
    pub fn new(alloc: Global) -> TextSink
        ensures { result.text.items ≡ [] }
    {
        TextSink {
            text: Vec::new(alloc),
            faults: 0,
        }
    }

    // What was put, where all of it was written.
    fn into_line(mut self, out: &mut Buffer) -> Result<Vec<u8>, AllocError>
        ensures { (start : TextSink) (fresh : Buffer) (line : List ℕ) → IsFresh fresh
            → start.text.items ≡ []
            → Puts (λ s. Some s.text.items) (λ s. s.faults) start self fresh out.old line
            → IfOk result (λ text. text.items ≡ line) }
    {
        match out.finish(&mut self) {
            Printed::Whole => Ok(self.text),
            Printed::Failed => Err(AllocError),
        }
    }
}

/// Prints lines of the reply text by themselves, each into memory of its own.
///
/// All of them pass one buffer, which is made once.
#[derive(Drop)]
pub struct LinePrinter {
    /// Where the memory of the lines is from.
    pub alloc: Global,
    out: Buffer,
}

impl LinePrinter {
    /// A printer of lines in this memory.
    pub fn new(alloc: Global) -> LinePrinter
        ensures { result.alloc ≡ alloc }
    {
        LinePrinter {
            alloc,
            out: Buffer::new(),
        }
    }

    /// A line of a word and a number.
    pub fn numbered_line(&mut self, word: &[u8], number: u64) -> Result<Vec<u8>, AllocError>
        ensures { IfOk result (λ line. line.items ≡ word.now ++ decimal number ++ codes "\n") }
    {
        self.out.restart();
        let mut sink = TextSink::new(self.alloc);
        put_numbered(&mut self.out, &mut sink, word, number);
        sink.into_line(&mut self.out)
    }

    /// The reply to the key line of this number.
    pub fn key_line(&mut self, number: u64, reply: &KeyReply) -> Result<Vec<u8>, AllocError>
        ensures { IfOk result (λ line. line.items ≡ key_line number reply.now) }
    {
        self.out.restart();
        let mut sink = TextSink::new(self.alloc);
        put_key_line(&mut self.out, &mut sink, number, reply);
        sink.into_line(&mut self.out)
    }

    /// The reply to the context line of this number.
    pub fn context_line(&mut self, number: u64, reply: &ContextReply) -> Result<Vec<u8>, AllocError>
        ensures { IfOk result (λ line. line.items ≡ context_line number reply.now) }
    {
        self.out.restart();
        let mut sink = TextSink::new(self.alloc);
        put_context_line(&mut self.out, &mut sink, number, reply);
        sink.into_line(&mut self.out)
    }

    /// The line of a reply, whose span is of the pool.
    pub fn reply_line(&mut self, pool: &[u8], reply: &Reply) -> Result<Vec<u8>, AllocError>
        requires { IsInRange (length pool.now) reply.now }
        ensures { IfOk result (λ line. line.items ≡ reply_line pool.now reply.now) }
    {
        self.out.restart();
        let mut sink = TextSink::new(self.alloc);
        put_reply(&mut self.out, &mut sink, pool, reply);
        sink.into_line(&mut self.out)
    }

    /// The line of a note of the table.
    pub fn note_line(&mut self, note: &Entry) -> Result<Vec<u8>, AllocError>
        ensures { IfOk result (λ line. line.items ≡ note_line note.now) }
    {
        self.out.restart();
        let mut sink = TextSink::new(self.alloc);
        put_note(&mut self.out, &mut sink, note);
        sink.into_line(&mut self.out)
    }
}
